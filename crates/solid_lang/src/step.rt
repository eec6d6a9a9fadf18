// A clause without its name.
ghost use Rattle.std.specs.Prelude.{◌≡◌};
ghost use Rattle.solid_lang.specs.Compiled.{coordinate};
ghost use Rattle.solid_lang.specs.Steps.{constant, on_one, on_two};

use fixed_ops::{Fx, Op};

/// What a clause says beside its name: an operation, the places of its operands, and the number of
/// a constant. Places of operands that the operation lacks are 0, and so is the number where it is
/// no constant.
#[derive(Clone, Copy, Debug)]
pub(crate) struct Step {
    pub(crate) op: Op,
    pub(crate) a: u32,
    pub(crate) b: u32,
    pub(crate) value: Fx,
}

impl Step {
    /// A coordinate of the point itself.
    #[inline]
    pub(crate) fn coordinate(op: Op) -> Step
        ensures { result ≡ coordinate op }
    {
        Step {
            op,
            a: 0,
            b: 0,
            value: Fx::from_raw(0),
        }
    }

    /// A constant.
    #[inline]
    pub(crate) fn constant(value: Fx) -> Step
        ensures { result ≡ constant value }
    {
        Step {
            op: Op::Const,
            a: 0,
            b: 0,
            value,
        }
    }

    /// An operation on one clause.
    #[inline]
    pub(crate) fn on_one(op: Op, a: u32) -> Step
        ensures { result ≡ on_one op a }
    {
        Step {
            op,
            a,
            b: 0,
            value: Fx::from_raw(0),
        }
    }

    /// An operation on two clauses.
    #[inline]
    pub(crate) fn on_two(op: Op, a: u32, b: u32) -> Step
        ensures { result ≡ on_two op a b }
    {
        Step {
            op,
            a,
            b,
            value: Fx::from_raw(0),
        }
    }
}
