// What a clause says beside its name.
ghost use Rattle.std.specs.Prelude.{◌≡◌, []};
ghost use Rattle.solid_model.specs.Seen.{clause_seen, named_clause};
ghost use Rattle.solid_model.specs.Surgery.{reads_before};

use crate::ClauseRef;
use fixed_ops::{Fx, Op, arity};

// An operation, the places of its operands, and the number of a constant. Places of operands that the
// operation lacks are 0, and so is the number where it is no constant.
#[derive(Clone, Copy, Debug, Drop)]
pub(crate) struct PlacedForm {
    pub(crate) op: Op,
    pub(crate) a: u32,
    pub(crate) b: u32,
    pub(crate) value: Fx,
}

impl PlacedForm {
    // The clause of this name that says this.
    #[inline]
    pub(crate) fn named<'n>(&self, name: &'n [u8]) -> ClauseRef<'n>
        ensures { clause_seen result ≡ named_clause name.now self.now }
    {
        ClauseRef {
            name,
            op: self.op,
            a: self.a,
            b: self.b,
            value: self.value,
        }
    }

    // Whether each operand stands before a place.
    pub(crate) fn reads_before(&self, place: u32) -> bool
        ensures { result ≡ reads_before place (named_clause [] self.now) }
    {
        let operands = arity(self.op);
        (operands < 1 || self.a < place) && (operands < 2 || self.b < place)
    }
}
