// What the modeller writes to.
ghost use Rattle.std.specs.Prelude.{ℕ, ◌<◌, ◌≤◌, List, length, take, Option, IfOk, OnOk, OnErr};
ghost use Rattle.modeller_io.specs.Count.{RoseBy, Stands};
ghost use Rattle.modeller_io.specs.Held.{Gains};

use crate::Failed;

/// A sink for bytes, whose calls may fail.
pub trait Sink {
    /// The bytes taken so far, where the sink tells them. A sink may cease to tell, and never begins to.
    ghost held: { Self → Option (List ℕ) };

    /// How often a call has failed. The count stops at 2^64 - 1.
    ghost faults: { Self → ℕ };

    /// Takes bytes from the front of `piece`, and says how many: at least one where there is one.
    /// After `Failed` one more fault is counted, and none of the bytes was taken.
    fn write(&mut self, piece: &[u8]) -> Result<usize, Failed>
        ensures within { IfOk result (λ count. count ≤ length piece.now) }
        ensures progress { IfOk result (λ count. 0 < length piece.now → 0 < count) }
        ensures bytes { IfOk result (λ count. Gains held self.old self.new (take count piece.now)) }
        ensures no_fault { OnOk result (Stands faults self.old self.new) }
        ensures cause { OnErr result (RoseBy faults self.old self.new 1) }
        ensures err { OnErr result (Stands held self.old self.new) };
}
