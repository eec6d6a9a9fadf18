// What a clause says beside its name.
ghost use Rattle.std.specs.Prelude.{◌≡◌};
ghost use Rattle.solid_model.specs.Tables.{no_row, row_reads};

use fixed_ops::{Fx, Op, arity};

// An operation, the numbers of the clauses that are its operands, and the number of a constant. The
// number of an operand that the operation lacks means nothing.
#[derive(Clone, Copy, Debug, Drop)]
pub(crate) struct Row {
    pub(crate) op: Op,
    pub(crate) a: u16,
    pub(crate) b: u16,
    pub(crate) value: Fx,
}

impl Row {
    // The row of a number that is new.
    pub(crate) fn empty() -> Row
        ensures { result ≡ no_row }
    {
        Row {
            op: Op::X,
            a: 0,
            b: 0,
            value: Fx::from_raw(0),
        }
    }

    // Whether a number is an operand. The numbers are asked first: they tell most rows apart.
    #[inline]
    pub(crate) fn reads(&self, number: u16) -> bool
        ensures { result ≡ row_reads number self.now }
    {
        (self.a == number && arity(self.op) >= 1) || (self.b == number && arity(self.op) >= 2)
    }
}
