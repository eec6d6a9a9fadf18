// A sink in memory, for tests: it takes bytes in chunks, and fails where it is told to.
ghost use Rattle.std.specs.Prelude.{◌≡◌, ◌↔◌, [], ◌<◌, ◌≤◌, length, take, min, Contains, Some, IfOk, OnErr, IsErr, vec_len, option_copied};
ghost use Rattle.modeller_io.specs.Count.{raised};
ghost use Rattle.modeller_io.specs.Held.{Extends};
ghost use Rattle.modeller_io.specs.SinkView.{held_with};

use crate::fault_script::FaultScript;
use crate::{Failed, Sink, SureSink};
use std::marker::Model;

/// A sink into memory of a fixed length, which fails at chosen calls.
#[derive(Drop)]
pub struct MemSink {
    sink: SureSink,
    script: FaultScript,
}

impl Model for MemSink {
    ghost use Rattle.modeller_io.specs.SinkView.{SinkView};

    ghost Value = { SinkView };

    ghost view = { λ s. record {
      held = s.sink.held;
      room = s.sink.room;
      faults = s.script.faults;
      calls = s.script.calls;
      chunk = s.sink.chunk;
      fails = s.script.fails.items;
    } };
}

impl MemSink {
    /// An empty sink. It takes at most `chunk` bytes a call, and holds as many as `room` is long.
    /// The calls whose numbers, from 1, stand in `fails` fail. No others do.
    pub fn new(chunk: u64, fails: Vec<u64>, room: Vec<u8>) -> MemSink
        requires { 1 ≤ chunk }
        ensures { result ≡ record {
          held = Some [];
          room = vec_len room;
          faults = 0;
          calls = 0;
          chunk = chunk;
          fails = fails.items;
        } }
    {
        MemSink {
            sink: SureSink::new(chunk, room),
            script: FaultScript::new(fails),
        }
    }

    /// The bytes taken so far, or `None` where they do not fit into the room.
    pub fn held(&self) -> Option<&[u8]>
        ensures { option_copied result ≡ self.now.held }
    {
        self.sink.held()
    }
}

impl Sink for MemSink {
    ghost held = { λ sink. sink.held };

    ghost faults = { λ sink. sink.faults };

    /// As the trait says. The call fails exactly where its number is listed, and else takes as many
    /// bytes as the piece and the chunk allow. The sink tells what it holds as long as the bytes
    /// taken fit into its room.
    fn write(&mut self, piece: &[u8]) -> Result<usize, Failed>
        ensures listed { IsErr result ↔ Contains self.old.fails (raised self.old.calls 1) }
        ensures count { IfOk result (λ count. count ≡ min (length piece.now) self.old.chunk) }
        ensures progress { IfOk result (λ count. 0 < length piece.now → 0 < count) }
        ensures bytes { IfOk result (λ count.
            Extends self.old.held self.new.held (take count piece.now)) }
        ensures ok { IfOk result (λ count. self.new ≡ record self.old {
          held = held_with self.old.room self.old.held (take count piece.now);
          calls = raised self.old.calls 1;
        }) }
        ensures err { OnErr result (self.new ≡ record self.old {
          faults = raised self.old.faults 1;
          calls = raised self.old.calls 1;
        }) }
    {
        self.script.count_call()?;
        self.sink.write(piece)
    }
}
