// The choice between the operands of a minimum or a maximum.
ghost use Rattle.std.specs.Prelude.{◌≡◌};
ghost use Rattle.interval_ops.specs.Choices.{choice_of};

use crate::Span;
use fixed_ops::{Op, le, lt};

/// Which operand an operation's result is, all over a box.
#[derive(Clone, Copy, Debug, PartialEq, Eq)]
pub enum Choice {
    /// The first operand.
    Left,
    /// The second operand.
    Right,
    /// Not known, or neither.
    Both,
}

/// The operand that is the result for all values of two ranges. A tie goes to the first. It is
/// Both where neither is, and for every operation but `Min` and `Max`.
#[inline]
pub fn choose(op: Op, a: Span, b: Span) -> Choice
    ensures { result ≡ choice_of op a b }
{
    match op {
        Op::Min => lesser_choice(a, b),
        Op::Max => greater_choice(a, b),
        _ => Choice::Both,
    }
}

// The choice of a minimum.
#[inline]
fn lesser_choice(a: Span, b: Span) -> Choice
    ensures { result ≡ choice_of Op.Min a b }
{
    if le(a.hi(), b.lo()) {
        Choice::Left
    } else if lt(b.hi(), a.lo()) {
        Choice::Right
    } else {
        Choice::Both
    }
}

// The choice of a maximum.
#[inline]
fn greater_choice(a: Span, b: Span) -> Choice
    ensures { result ≡ choice_of Op.Max a b }
{
    if le(b.hi(), a.lo()) {
        Choice::Left
    } else if lt(a.hi(), b.lo()) {
        Choice::Right
    } else {
        Choice::Both
    }
}
