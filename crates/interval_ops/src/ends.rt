// The ends of hulls.
ghost use Rattle.std.specs.Prelude.{◌≡◌, ◌≤ℤ◌, if◌then◌else◌};
ghost use Rattle.std.specs.Int.{int_max, int_min};
ghost use Rattle.fixed_ops.specs.Counts.{corners_of, RisesBy};
ghost use Rattle.fixed_ops.specs.Operations.{op_result};
ghost use Rattle.fixed_ops.specs.Raw.{is_inside};
ghost use Rattle.interval_ops.specs.Hulls.{between, hull_of_four};

use crate::Span;
use fixed_ops::{Fx, Op, Tally, corner, is_inside, le};

// The lesser of two numbers.
#[inline]
pub(crate) fn lesser(x: Fx, y: Fx) -> Fx
    ensures value { result ≡ int_min x y }
    ensures left { result ≤ℤ x }
    ensures right { result ≤ℤ y }
{
    if le(x, y) { x } else { y }
}

// The greater of two numbers.
#[inline]
pub(crate) fn greater(x: Fx, y: Fx) -> Fx
    ensures value { result ≡ int_max x y }
    ensures left { x ≤ℤ result }
    ensures right { y ≤ℤ result }
{
    if le(x, y) { y } else { x }
}

// One number where another is below 0, and a second one elsewhere.
#[inline]
pub(crate) fn by_sign(of: Fx, below: Fx, otherwise: Fx) -> Fx
    ensures { result ≡ (if is_inside of then below else otherwise) }
{
    if is_inside(of) { below } else { otherwise }
}

// The span from the result on one pair of numbers to the result on another.
#[inline]
#[tactic(auto, using(crate::proofs::CountLemmas::rise_by_two_corners))]
pub(crate) fn from_to(op: Op, low: (Fx, Fx), high: (Fx, Fx), tally: &mut Tally) -> Span
    requires { op_result op low.0 low.1 ≤ℤ op_result op high.0 high.1 }
    ensures value { result ≡ between (op_result op low.0 low.1) (op_result op high.0 high.1) }
    ensures counted { RisesBy tally.old tally.new (corners_of 2) }
{
    let lo = corner(op, low.0, low.1, tally);
    let hi = corner(op, high.0, high.1, tally);
    Span::new(lo, hi)
}

// The span of the least and the greatest of four numbers.
#[inline]
pub(crate) fn of_four(p: Fx, q: Fx, r: Fx, s: Fx) -> Span
    ensures { result ≡ hull_of_four p q r s }
{
    Span::new(
        lesser(lesser(p, q), lesser(r, s)),
        greater(greater(p, q), greater(r, s)),
    )
}
