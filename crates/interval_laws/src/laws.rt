// Laws over the definitions of hulls and choices. The functions compute nothing: what they ensure
// is the law. Each reads an end of its spans, which says that the ends are raw numbers in order.
ghost use Rattle.interval_laws.specs.Laws.{Attains, ChoicesAreKept, ChosenOnesWin, ChosenWins, EndsAreAttained, HullsShrink, Includes, InclusionHolds, KeepsChoice, Shrinks};

use fixed_ops::{Fx, Op};
use interval_ops::Span;

/// Where `u` lies in `a` and `v` in `b`, the result on them lies in the hull of `a` and `b`.
#[inline]
pub fn inclusion(op: Op, a: Span, b: Span, u: Fx, v: Fx)
    ensures { Includes op a b u v }
{
    let _ends = (a.lo(), b.lo());
}

/// Both ends of the hull of `a` and `b` are results on a value of `a` and a value of `b`, but for
/// a division whose divisor may be 0.
#[inline]
pub fn attained(op: Op, a: Span, b: Span)
    ensures { Attains op a b }
{
    let _ends = (a.lo(), b.lo());
}

/// Where `c` lies in `a` and `d` in `b`, the hull of `c` and `d` lies in the hull of `a` and `b`.
#[inline]
pub fn shrinking(op: Op, a: Span, b: Span, c: Span, d: Span)
    ensures { Shrinks op a b c d }
{
    let _ends = (a.lo(), b.lo(), c.lo(), d.lo());
}

/// Where `u` lies in `a` and `v` in `b`, and the choice over `a` and `b` is an operand, the result
/// on `u` and `v` is that operand, and it wins: the first of a minimum is at most the second, and
/// the second less than the first; the first of a maximum is at least the second, and the second
/// greater than the first.
#[inline]
#[tactic(auto, using(crate::proofs::LawProofs::choice_keeps, crate::proofs::LawProofs::chosen_wins))]
pub fn choice_kept(op: Op, a: Span, b: Span, u: Fx, v: Fx)
    ensures kept { KeepsChoice op a b u v }
    ensures wins { ChosenWins op a b u v }
{}

/// The same laws, of all spans and all numbers at once.
#[inline]
pub fn laws_of_spans()
    ensures inclusion { InclusionHolds }
    ensures attained { EndsAreAttained }
    ensures shrinking { HullsShrink }
    ensures kept { ChoicesAreKept }
    ensures wins { ChosenOnesWin }
{}
