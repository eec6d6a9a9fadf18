// A box of the grid before.

use crate::grid_values::GridValues;
use live_clauses::Tape;

/// A box of the grid that a box is looked into after.
#[derive(Clone, Copy, Debug)]
pub struct OldBox<'a> {
    /// The list that it received.
    pub list: &'a Tape,
    /// The values that were known of the points of the grid.
    pub values: &'a GridValues,
}

impl<'a> OldBox<'a> {
    ghost use Rattle.std.specs.Prelude.{◌≡◌};

    /// A half of it, which received this list.
    #[inline]
    pub fn half(self, handed: &'a Tape) -> OldBox<'a>
        ensures list { result.list.now ≡ handed.now }
        ensures values { result.values.now ≡ self.entry.values.now }
    {
        OldBox {
            list: handed,
            values: self.values,
        }
    }
}
