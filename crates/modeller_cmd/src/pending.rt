// Lines of a script that wait to be written.
ghost use Rattle.std.specs.Prelude.{◌≡◌, ◌↔◌, ◌+◌, ◌*◌, ◌<◌, ◌≤◌, ◌++◌, [], length, IsTrue, OnErr, OnOk};
ghost use Rattle.modeller_io.specs.Count.{Stands};
ghost use Rattle.modeller_io.specs.Held.{Gains};
ghost use Rattle.modeller_cmd.specs.Writing.{FailsToSend};
ghost use Rattle.modeller_cmd.specs.declared.line.TheConstants.{LINE_LIMIT};
ghost use Rattle.modeller_cmd.specs.declared.pending.TheConstants.{PENDING_LIMIT};

use crate::line::{LINE_LIMIT, Line};
use arrayvec::ArrayVec;
use modeller_io::{Failed, Sink, write_all};
use std::marker::Model;

/// The most bytes that wait. They go out in one call of a sink, which takes about a microsecond where it
/// is a file, however few they are.
pub const PENDING_LIMIT: usize = 8 * 1024;

/// Lines that wait to be written, kept without memory. Contracts see their bytes.
#[derive(Drop)]
pub struct PendingLines {
    bytes: ArrayVec<u8, PENDING_LIMIT>,
}

impl Model for PendingLines {
    ghost use Rattle.std.specs.Prelude.{ℕ, List};

    ghost Value = { List ℕ };

    ghost view = { λ lines. lines.bytes.items };
}

impl PendingLines {
    /// No lines.
    pub fn new() -> PendingLines
        ensures { result ≡ [] }
    {
        PendingLines {
            bytes: ArrayVec::new(),
        }
    }

    /// Whether there is room for two more lines, whatever they are.
    #[inline]
    pub fn has_room(&self) -> bool
        ensures { IsTrue result ↔ (length self.now + 2 * LINE_LIMIT ≤ PENDING_LIMIT) }
    {
        self.bytes.len() <= PENDING_LIMIT - 2 * LINE_LIMIT
    }

    /// Adds a line behind the others.
    pub fn push(&mut self, line: &Line)
        requires { length self.old + length line.now ≤ PENDING_LIMIT }
        ensures { self.new ≡ self.old ++ line.now }
    {
        self.bytes.try_extend_from_slice(line.bytes()).unwrap();
    }

    /// Writes them all, and keeps none. `Failed` comes only where there are some. A proper prefix of their
    /// bytes was taken then.
    pub fn write<K: Sink>(&mut self, out: &mut K) -> Result<(), Failed>
        ensures sent { OnOk result (Gains K.held out.old out.new self.old) }
        ensures no_fault { OnOk result (Stands K.faults out.old out.new) }
        ensures empty { OnOk result (self.new ≡ []) }
        ensures failed { OnErr result (FailsToSend K.held K.faults out.old out.new self.old) }
    {
        write_all(out, self.bytes.as_slice())?;
        self.bytes.clear();
        Ok(())
    }
}
