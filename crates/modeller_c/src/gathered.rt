// A sink that gathers what it takes.
ghost use Rattle.std.specs.Prelude.{◌≡◌, ◌++◌, length, IfOk, IsOk, OnErr};
ghost use Rattle.modeller_io.specs.Count.{raised};
ghost use Rattle.modeller_c.specs.Gathering.{nothing_yet};

use modeller_io::{Failed, Sink};
use std::alloc::{AllocError, Global};
use std::marker::Model;

/// A sink into memory that grows. A call of it fails where memory for its bytes is refused.
#[derive(Drop)]
pub(crate) struct Gathered {
    bytes: Vec<u8>,
    faults: u64,
}

impl Model for Gathered {
    ghost use Rattle.modeller_c.specs.Gathering.{Gathering};

    ghost Value = { Gathering };

    ghost view = { λ s. record { held = s.bytes.items; faults = s.faults } };
}

impl Gathered {
    /// A sink that has taken nothing yet. Its memory is enough for so many bytes, and grows with more.
    pub(crate) fn new(alloc: Global, capacity: usize) -> Result<Gathered, AllocError>
        ensures { IfOk result (λ sink. sink ≡ nothing_yet) }
    {
        Ok(Gathered {
            bytes: Vec::with_capacity(alloc, capacity)?,
            faults: 0,
        })
    }

    /// All that was written to the sink, where no call of it has failed.
    pub(crate) fn whole(&self) -> Result<&[u8], AllocError>
        ensures whole { IfOk result (λ bytes. (bytes.now ≡ self.now.held) × (self.now.faults ≡ 0)) }
        ensures granted { self.now.faults ≡ 0 → IsOk result }
    {
        if self.faults > 0 {
            return Err(AllocError);
        }
        Ok(&self.bytes)
    }
}

impl Sink for Gathered {
    ghost use Rattle.std.specs.Prelude.{Some};

    ghost held = { λ sink. Some sink.held };

    ghost faults = { λ sink. sink.faults };

    /// As the trait says. A call takes the whole piece, or fails where memory for it is refused.
    fn write(&mut self, piece: &[u8]) -> Result<usize, Failed>
        ensures count { IfOk result (λ count. count ≡ length piece.now) }
        ensures ok { IfOk result (λ count. self.new ≡ record self.old {
          held = self.old.held ++ piece.now;
        }) }
        ensures err { OnErr result (self.new ≡ record self.old {
          faults = raised self.old.faults 1;
        }) }
    {
        match self.bytes.extend_from_slice(piece) {
            Ok(()) => Ok(piece.len()),
            Err(AllocError) => {
                self.faults = self.faults.saturating_add(1);
                Err(Failed)
            }
        }
    }
}
