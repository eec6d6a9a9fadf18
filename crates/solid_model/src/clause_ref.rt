// A clause as a model shows it.
ghost use Rattle.std.specs.Prelude.{◌≡◌};
ghost use Rattle.solid_model.specs.Seen.{clause_seen, placed_form};
ghost use Rattle.solid_model.specs.Surgery.{reads_before};

use crate::placed_form::PlacedForm;
use fixed_ops::{Fx, Op};

/// A clause of a model, whose name is lent: an operation, the places of its operands, and the
/// number of a constant.
#[derive(Clone, Copy, Debug)]
pub struct ClauseRef<'m> {
    /// The bytes of its name.
    pub name: &'m [u8],
    /// What it computes.
    pub op: Op,
    /// The place of the first operand, or 0 where the operation has none.
    pub a: u32,
    /// The place of the second operand, or 0 where the operation has none.
    pub b: u32,
    /// The number of a constant, or 0.
    pub value: Fx,
}

impl ClauseRef<'_> {
    // What it says beside its name.
    #[inline]
    pub(crate) fn form(&self) -> PlacedForm
        ensures { result ≡ placed_form (clause_seen self.now) }
    {
        PlacedForm {
            op: self.op,
            a: self.a,
            b: self.b,
            value: self.value,
        }
    }

    // Whether each operand stands before a place.
    #[inline]
    pub(crate) fn reads_before(&self, place: u32) -> bool
        ensures { result ≡ reads_before place (clause_seen self.now) }
    {
        self.form().reads_before(place)
    }
}
