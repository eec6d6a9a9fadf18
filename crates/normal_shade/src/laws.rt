// What always holds of the slopes of lists that are shortened, and of the work of shading.
ghost use Rattle.interval_laws.specs.Laws.{ChosenWins};
ghost use Rattle.normal_shade.specs.Laws.{ShadePointsAreBounded, ShadeSpansAreBounded};
ghost use Rattle.normal_shade.specs.Laws.{SlopeIsTaken, SlopesAreKept};

use crate::Dual;
use box_chains::layers_hold;
use choice_trace::traces_are_right;
use fixed_ops::{Fx, Op};
use interval_laws::choice_kept;
use interval_ops::Span;
use live_clauses::{live_lists_keep_meanings, values_have_slopes};

/// Where `u` lies in `a` and `v` in `b`, and the choice over `a` and `b` is an operand, that operand
/// wins: the first of a minimum is at most the second, and the second less than the first; the first
/// of a maximum is at least the second, and the second greater than the first. So the slope of the
/// result is the slope of that operand, and what is dropped is never the one whose slope is taken.
#[inline]
pub fn choice_taken(op: Op, a: Span, b: Span, u: Fx, v: Fx)
    ensures wins { ChosenWins op a b u v }
    ensures slope { SlopeIsTaken op a b u v }
{
    choice_kept(op, a, b, u, v);
}

/// At each point of a region, the live list of a list under the choices that are traced over the
/// region has the value and the slopes of the list that it comes from.
#[inline]
pub fn live_lists_keep_slopes()
    ensures { SlopesAreKept }
{
    live_lists_keep_meanings::<Dual>();
    values_have_slopes();
    traces_are_right();
}

/// A shaded height map takes no more evaluations than ten for each step of the list in each column, and
/// no more steps are traced for it than for a height map. So neither count stands still at its last
/// value.
pub fn shade_work_is_bounded()
    ensures points { ShadePointsAreBounded }
    ensures spans { ShadeSpansAreBounded }
{
    layers_hold();
}
