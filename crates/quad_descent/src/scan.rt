// The samples of a leaf, one after another.

use view_places::IndexBox;

/// How far the samples of a leaf are told, row by row.
#[derive(Clone, Copy, Debug, PartialEq, Eq)]
pub struct Scan {
    /// How many are told.
    pub told: u32,
    /// The column of the next one.
    pub i: u32,
    /// The row of the next one.
    pub j: u32,
    /// A binary digit for each that is told, the last one lowest, and 1 for inside.
    pub bits: u64,
}

impl Scan {
    ghost use Rattle.std.specs.Prelude.{◌≡◌, ◌+◌, ◌<◌, ◌≤◌};
    ghost use Rattle.quad_descent.specs.Scans.{IsAtNext, sample_count};

    /// No sample of a box is told.
    #[inline]
    pub fn new(b: IndexBox) -> Scan
        ensures next { IsAtNext b result }
        ensures told { result.told ≡ 0 }
        ensures bits { result.bits ≡ 0 }
    {
        Scan {
            told: 0,
            i: b.x0,
            j: b.y0,
            bits: 0,
        }
    }

    /// Passes a sample, whose digit is put elsewhere.
    #[inline]
    pub fn pass(&mut self, b: IndexBox)
        requires next { IsAtNext b self.old }
        requires small { sample_count b ≤ 64 }
        requires some { self.old.told < sample_count b }
        ensures next { IsAtNext b self.new }
        ensures told { self.new.told ≡ self.old.told + 1 }
        ensures bits { self.new.bits ≡ self.old.bits }
    {
        self.told += 1;
        self.i += 1;
        if self.i == b.x1 {
            self.i = b.x0;
            self.j += 1;
        }
    }
}
