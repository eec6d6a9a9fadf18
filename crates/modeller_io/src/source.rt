// What the modeller reads from.
ghost use Rattle.std.specs.Prelude.{◌≡◌, ℕ, ◌<◌, ◌≤◌, List, length, take, Option, Ok, IfOk, OnOk, OnErr};
ghost use Rattle.std.specs.Io.KnownBytes.{IsAtEnd};
ghost use Rattle.modeller_io.specs.Count.{last_count, RoseBy, Stands};
ghost use Rattle.modeller_io.specs.Took.{Loses};

use crate::Failed;

/// A source of bytes, whose calls may fail.
pub trait Source {
    /// The bytes left, where the source tells them.
    ghost rest: { Self → Option (List ℕ) };

    /// How many bytes were read so far. The count stops at 2^64 - 1.
    ghost taken: { Self → ℕ };

    /// How often a call has failed. The count stops at 2^64 - 1.
    ghost faults: { Self → ℕ };

    /// Reads bytes into the front of `buf`, and says how many. `Ok(0)` with room in `buf` is the end.
    /// After `Failed` one more fault is counted, and no byte is lost.
    fn read(&mut self, buf: &mut [u8]) -> Result<usize, Failed>
        ensures within { IfOk result (λ count. count ≤ length buf.new) }
        ensures bytes { IfOk result (λ count. Loses rest self.old self.new (take count buf.new)) }
        ensures end { result ≡ Ok 0 → 0 < length buf.new → IsAtEnd (rest self.old) }
        ensures took { IfOk result (λ count. RoseBy taken self.old self.new count) }
        ensures stops { taken self.new ≤ last_count }
        ensures no_fault { OnOk result (Stands faults self.old self.new) }
        ensures cause { OnErr result (RoseBy faults self.old self.new 1) }
        ensures err { OnErr result (Stands rest self.old self.new × Stands taken self.old self.new) };
}
