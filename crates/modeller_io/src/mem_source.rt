// A source in memory, for tests: it gives its bytes in chunks, and fails where it is told to.
ghost use Rattle.std.specs.Prelude.{◌≡◌, ◌↔◌, ◌<◌, ◌≤◌, [], ◌++◌, length, take, Contains, Some, Ok, IfOk, OnOk, OnErr, IsErr};
ghost use Rattle.modeller_io.specs.Count.{last_count, raised};
ghost use Rattle.modeller_io.specs.SourceView.{given};

use crate::fault_script::FaultScript;
use crate::{Failed, Source, SureSource};
use std::marker::Model;

/// A source over bytes in memory, which fails at chosen calls.
#[derive(Drop)]
pub struct MemSource {
    source: SureSource,
    script: FaultScript,
}

impl Model for MemSource {
    ghost use Rattle.std.specs.Prelude.{◌≤◌};
    ghost use Rattle.modeller_io.specs.Count.{last_count};
    ghost use Rattle.modeller_io.specs.SourceView.{SourceView};

    ghost Value = { SourceView };

    ghost view = { λ s. record {
      rest = s.source.rest;
      taken = s.source.taken;
      faults = s.script.faults;
      calls = s.script.calls;
      chunk = s.source.chunk;
      fails = s.script.fails.items;
    } };

    ghost invariant = { λ s. s.source.taken ≤ last_count };
}

impl MemSource {
    /// A source of these bytes. It gives at most `chunk` bytes a call, and the calls whose numbers,
    /// from 1, stand in `fails` fail. No others do.
    pub fn new(bytes: Vec<u8>, chunk: u64, fails: Vec<u64>) -> MemSource
        requires { 1 ≤ chunk }
        ensures { result ≡ record {
          rest = bytes.items;
          taken = 0;
          faults = 0;
          calls = 0;
          chunk = chunk;
          fails = fails.items;
        } }
    {
        MemSource {
            source: SureSource::new(bytes, chunk),
            script: FaultScript::new(fails),
        }
    }
}

impl Source for MemSource {
    ghost rest = { λ source. Some source.rest };

    ghost taken = { λ source. source.taken };

    ghost faults = { λ source. source.faults };

    /// As the trait says. The call fails exactly where its number is listed, and else gives as many
    /// bytes as the buffer, the chunk and what is left allow.
    fn read(&mut self, buf: &mut [u8]) -> Result<usize, Failed>
        ensures within { IfOk result (λ count. count ≤ length buf.new) }
        ensures listed { IsErr result ↔ Contains self.old.fails (raised self.old.calls 1) }
        ensures count { IfOk result (λ count.
            count ≡ given (length buf.old) self.old.chunk self.old.rest) }
        ensures bytes { IfOk result (λ count. self.old.rest ≡ take count buf.new ++ self.new.rest) }
        ensures end { result ≡ Ok 0 → 0 < length buf.new → self.old.rest ≡ [] }
        ensures stops { self.new.taken ≤ last_count }
        ensures ok { IfOk result (λ count. self.new ≡ record self.old {
          rest = self.new.rest;
          taken = raised self.old.taken count;
          calls = raised self.old.calls 1;
        }) }
        ensures err { OnErr result (self.new ≡ record self.old {
          faults = raised self.old.faults 1;
          calls = raised self.old.calls 1;
        }) }
    {
        self.script.count_call()?;
        self.source.read(buf)
    }
}
