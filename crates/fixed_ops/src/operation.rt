// The operations of a clause.
ghost use Rattle.std.specs.Prelude.{◌≡◌};
ghost use Rattle.fixed_ops.specs.Arity.{arity_of};

/// What a clause computes.
#[derive(Clone, Copy, Debug, PartialEq, Eq)]
pub enum Op {
    /// The coordinate along x.
    X,
    /// The coordinate along y.
    Y,
    /// The coordinate along z.
    Z,
    /// A constant.
    Const,
    /// The operand with the other sign.
    Neg,
    /// The product of the operand with itself.
    Square,
    /// The square root, which is 0 of what is below 0.
    Sqrt,
    /// The distance of the operand from 0.
    Abs,
    /// The greatest whole number that is not above the operand, or the least number where that whole
    /// number is out of range.
    Floor,
    /// The sum of two operands.
    Add,
    /// The first operand less the second.
    Sub,
    /// The product of two operands.
    Mul,
    /// The first operand divided by the second.
    Div,
    /// The lesser of two operands.
    Min,
    /// The greater of two operands.
    Max,
}

/// How many operands of an operation are clauses.
#[inline]
pub fn arity(op: Op) -> u32
    ensures { result ≡ arity_of op }
{
    match op {
        Op::X | Op::Y | Op::Z | Op::Const => 0,
        Op::Neg | Op::Square | Op::Sqrt | Op::Abs | Op::Floor => 1,
        Op::Add | Op::Sub | Op::Mul | Op::Div | Op::Min | Op::Max => 2,
    }
}
