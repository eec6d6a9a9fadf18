// What an operation makes of two spans.
ghost use Rattle.std.specs.Prelude.{◌≡◌, ◌≤ℤ◌, ◌<ℤ◌, pos};
ghost use Rattle.fixed_ops.specs.Counts.{corners_of, RisesAtMost, RisesBy};
ghost use Rattle.fixed_ops.specs.Operations.{op_result};
ghost use Rattle.interval_ops.specs.HullCounts.{CountsHulls, hull_corners, hulls_of};
ghost use Rattle.interval_ops.specs.Hulls.{IsHull, between, hull_above, hull_below, hull_of, hull_of_even};
ghost use Rattle.interval_ops.specs.Shapes.{IsEven, IsRising};

use crate::Span;
use crate::ends::{by_sign, from_to, greater, lesser, of_four};
use fixed_ops::{Fx, Op, Tally, corner, count_span, is_inside, lt};

/// The hull of an operation over two spans: the least and the greatest of its results on a value
/// of `a` and a value of `b`. It is all numbers for a division whose divisor may be 0, and `a` for
/// a coordinate or a constant. Counted as one hull and the corners that it takes: two, but four for
/// a product, and none for a coordinate, a constant or a division whose divisor may be 0.
#[inline(always)]
#[tactic(auto, using(crate::proofs::HullLaws::hull_is, crate::proofs::CountLemmas::rise_by_hull_and_corners, crate::proofs::CountLemmas::one_hull_is_counted))]
pub fn span_apply(op: Op, a: Span, b: Span, tally: &mut Tally) -> Span
    ensures value { result ≡ hull_of op a b }
    ensures hull { IsHull op a b result }
    ensures counted { CountsHulls 1 tally.old tally.new }
    ensures corners { RisesBy tally.old tally.new (hulls_of 1 (hull_corners op a b)) }
{
    count_span(tally);
    hull(op, a, b, tally)
}

// The hull of an operation, with its corners counted.
#[inline(always)]
#[tactic(auto, using(crate::proofs::CountLemmas::rise_by_no_corner, crate::proofs::CountLemmas::no_corner_is_at_most_four, crate::proofs::CountLemmas::two_corners_are_at_most_four, crate::proofs::CountLemmas::four_corners_are_at_most_four))]
fn hull(op: Op, a: Span, b: Span, tally: &mut Tally) -> Span
    ensures value { result ≡ hull_of op a b }
    ensures counted { RisesBy tally.old tally.new (corners_of (hull_corners op a b)) }
    ensures few { RisesAtMost tally.old tally.new (corners_of 4) }
{
    match op {
        Op::X | Op::Y | Op::Z | Op::Const => a,
        Op::Neg => opposite(a, b, tally),
        Op::Square => even(Op::Square, a, tally),
        Op::Sqrt => rising(Op::Sqrt, a, b, tally),
        Op::Abs => even(Op::Abs, a, tally),
        Op::Floor => rising(Op::Floor, a, b, tally),
        Op::Add => rising(Op::Add, a, b, tally),
        Op::Sub => difference(a, b, tally),
        Op::Mul => product(a, b, tally),
        Op::Div => quotient(a, b, tally),
        Op::Min => rising(Op::Min, a, b, tally),
        Op::Max => rising(Op::Max, a, b, tally),
    }
}

// The hull of the opposite.
#[inline]
#[tactic(auto, using(crate::proofs::Monotone::opposite_falls))]
fn opposite(a: Span, b: Span, tally: &mut Tally) -> Span
    ensures value { result ≡ hull_of Op.Neg a b }
    ensures counted { RisesBy tally.old tally.new (corners_of 2) }
{
    from_to(Op::Neg, (a.hi(), b.lo()), (a.lo(), b.lo()), tally)
}

// The hull of an operation that rises with each operand.
#[inline]
#[tactic(auto, using(crate::proofs::Monotone::rises))]
fn rising(op: Op, a: Span, b: Span, tally: &mut Tally) -> Span
    requires { IsRising op }
    ensures value { result ≡ between (op_result op a.lo b.lo) (op_result op a.hi b.hi) }
    ensures counted { RisesBy tally.old tally.new (corners_of 2) }
{
    from_to(op, (a.lo(), b.lo()), (a.hi(), b.hi()), tally)
}

// The hull of a difference, whose least result has the greatest subtrahend.
#[inline]
#[tactic(auto, using(crate::proofs::Monotone::difference_rises))]
fn difference(a: Span, b: Span, tally: &mut Tally) -> Span
    ensures value { result ≡ hull_of Op.Sub a b }
    ensures counted { RisesBy tally.old tally.new (corners_of 2) }
{
    from_to(Op::Sub, (a.lo(), b.hi()), (a.hi(), b.lo()), tally)
}

// The hull of an operation that is as great on either side of 0, rises away from it, and is 0
// there.
#[inline]
#[tactic(auto, using(crate::proofs::Monotone::even_above, crate::proofs::CountLemmas::rise_by_two_corners))]
fn even(op: Op, a: Span, tally: &mut Tally) -> Span
    requires { IsEven op }
    ensures value { result ≡ hull_of_even a (op_result op a.lo a.lo) (op_result op a.hi a.hi) }
    ensures counted { RisesBy tally.old tally.new (corners_of 2) }
{
    let first = corner(op, a.lo(), a.lo(), tally);
    let last = corner(op, a.hi(), a.hi(), tally);
    folded(a, first, last)
}

// The hull from the results at the ends of a span. Where it reaches 0 from below, the least result
// is 0.
#[inline]
fn folded(a: Span, first: Fx, last: Fx) -> Span
    requires { pos 0 ≤ℤ first }
    ensures { result ≡ hull_of_even a first last }
{
    Span::new(least_of_even(a, first, last), greater(first, last))
}

// The lower end of that hull.
#[inline]
fn least_of_even(a: Span, first: Fx, last: Fx) -> Fx
    requires { pos 0 ≤ℤ first }
    ensures value { result ≡ (hull_of_even a first last).lo }
    ensures below { result ≤ℤ first }
{
    if is_inside(a.lo()) && !is_inside(a.hi()) {
        Fx::from_raw(0)
    } else {
        lesser(first, last)
    }
}

// The hull of a product, whose ends are products of ends.
#[inline]
#[tactic(auto, using(crate::proofs::CountLemmas::rise_by_four_corners))]
fn product(a: Span, b: Span, tally: &mut Tally) -> Span
    ensures value { result ≡ hull_of Op.Mul a b }
    ensures counted { RisesBy tally.old tally.new (corners_of 4) }
{
    let p = corner(Op::Mul, a.lo(), b.lo(), tally);
    let q = corner(Op::Mul, a.lo(), b.hi(), tally);
    let r = corner(Op::Mul, a.hi(), b.lo(), tally);
    let s = corner(Op::Mul, a.hi(), b.hi(), tally);
    of_four(p, q, r, s)
}

// The hull of a quotient: all numbers where the divisor may be 0.
#[inline]
#[tactic(auto, using(crate::proofs::CountLemmas::rise_by_no_corner, crate::proofs::CountLemmas::negative_divisor_takes_two_corners, crate::proofs::CountLemmas::no_corner_is_at_most_four, crate::proofs::CountLemmas::two_corners_are_at_most_four))]
fn quotient(a: Span, b: Span, tally: &mut Tally) -> Span
    ensures value { result ≡ hull_of Op.Div a b }
    ensures counted { RisesBy tally.old tally.new (corners_of (hull_corners Op.Div a b)) }
    ensures few { RisesAtMost tally.old tally.new (corners_of 4) }
{
    if is_inside(b.hi()) {
        quotient_below(a, b, tally)
    } else if lt(Fx::from_raw(0), b.lo()) {
        quotient_above(a, b, tally)
    } else {
        Span::new(Fx::from_raw(-Fx::MAX_RAW), Fx::from_raw(Fx::MAX_RAW))
    }
}

// The hull of a quotient by divisors above 0: the dividend's ends, each by the divisor that takes
// it furthest.
#[inline]
#[tactic(auto, using(crate::proofs::QuotientOrder::above_ordered))]
fn quotient_above(a: Span, b: Span, tally: &mut Tally) -> Span
    requires { pos 0 <ℤ b.lo }
    ensures value { result ≡ hull_above a b }
    ensures counted { RisesBy tally.old tally.new (corners_of 2) }
{
    let low = by_sign(a.lo(), b.lo(), b.hi());
    let high = by_sign(a.hi(), b.hi(), b.lo());
    from_to(Op::Div, (a.lo(), low), (a.hi(), high), tally)
}

// The hull of a quotient by divisors below 0.
#[inline]
#[tactic(auto, using(crate::proofs::QuotientOrder::below_ordered))]
fn quotient_below(a: Span, b: Span, tally: &mut Tally) -> Span
    requires { b.hi <ℤ pos 0 }
    ensures value { result ≡ hull_below a b }
    ensures counted { RisesBy tally.old tally.new (corners_of 2) }
{
    let low = by_sign(a.hi(), b.lo(), b.hi());
    let high = by_sign(a.lo(), b.hi(), b.lo());
    from_to(Op::Div, (a.hi(), low), (a.lo(), high), tally)
}
