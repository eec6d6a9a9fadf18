// The branches that steps take at points, by the values of their operands.
ghost use Rattle.std.specs.Prelude.{◌≡◌, ◌<◌, ◌≤◌, ℕ, true, int_le, length};
ghost use Rattle.fixed_ops.specs.Points.{Point};
ghost use Rattle.fixed_ops.specs.Slopes.{Sloped};
ghost use Rattle.choice_trace.specs.Lanes.{in_lane, number_at};
ghost use Rattle.live_clauses.specs.Choices.{choice_at, choice_in, has_bit};
ghost use Rattle.live_clauses.specs.Steps.{IsTape};
ghost use Rattle.normal_shade.specs.Branches.{branch as branch_of, branches_of};
ghost use Rattle.normal_shade.specs.Duals.{HasValues, MarksReached, dual_in};

use crate::Dual;
use fixed_ops::{Fx, Op, le};
use interval_ops::Choice;
use live_clauses::{ChoiceRow, ChoiceRows, Steps, mark_rows, with_bit};

// Marks the steps of a list that the last one reaches at each of up to eight points, by rows of the values
// there, in the lanes that `lanes` has a bit for.
#[inline]
pub(crate) fn mark_lanes_reached(list: &Steps<'_>, values: &[[Fx; 8]], lanes: u8, marks: &mut [u8])
    requires values { length list.now ≤ length values.now }
    requires room { length list.now ≤ length marks.old }
    ensures { (l : ℕ) (p : Point) → l < 8 → has_bit lanes l ≡ true
        → HasValues p list.now (number_at l values.now) → MarksReached p list.now l marks.new }
{
    let steps = list.again();
    let branches = LaneBranches {
        list: &steps,
        values,
    };
    mark_rows(list, branches, lanes, marks);
}

// The same at one point, by dual numbers that have the values there, in the first lane.
pub(crate) fn mark_reached(list: &Steps<'_>, duals: &[Dual], marks: &mut [u8])
    requires values { length list.now ≤ length duals.now }
    requires room { length list.now ≤ length marks.old }
    ensures { (p : Point) → HasValues p list.now (λ place. (dual_in place duals.now).value)
        → MarksReached p list.now 0 marks.new }
{
    let steps = list.again();
    let branches = PointBranches {
        list: &steps,
        duals,
    };
    mark_rows(list, branches, 1, marks);
}

// The branches that the steps of a list take at up to eight points, by rows of their values there.
#[derive(Clone, Copy, Debug)]
struct LaneBranches<'a, 'b> {
    list: &'a Steps<'b>,
    values: &'a [[Fx; 8]],
    ghost tape: { IsTape list.now },
    ghost within: { length list.now ≤ length values.now },
}

impl<'a, 'b> ChoiceRows for LaneBranches<'a, 'b> {
    ghost lanes = { λ it l. branches_of it.list.now (number_at l it.values.now) };

    #[inline]
    fn row(self, place: usize) -> ChoiceRow {
        row_at(self.list, self.values, place)
    }
}

// The branches that the step at a place takes.
#[inline]
fn row_at(list: &Steps<'_>, values: &[[Fx; 8]], place: usize) -> ChoiceRow
    requires tape { IsTape list.now }
    requires there { place < length list.now }
    requires room { length list.now ≤ length values.now }
    ensures { (l : ℕ) → l < 8 → choice_in result l
        ≡ choice_at (branches_of list.now (number_at l values.now)) place }
{
    let step = list.step(place as u32);
    let (a, b) = (&values[step.a as usize], &values[step.b as usize]);
    match step.op {
        Op::Min => ChoiceRow::either(lanes_at_most(a, b)),
        Op::Max => ChoiceRow::either(lanes_at_most(b, a)),
        _ => ChoiceRow::both(),
    }
}

// The lanes in which the first number is at most the second.
#[inline]
fn lanes_at_most(a: &[Fx; 8], b: &[Fx; 8]) -> u8
    ensures { (l : ℕ) → l < 8 → has_bit result l ≡ int_le (in_lane l a.now) (in_lane l b.now) }
{
    let mut lanes = 0;
    for lane in 0..8usize {
        lanes = with_bit(lanes, lane, le(a[lane], b[lane]));
    }
    lanes
}

// The branches that the steps of a list take at one point, by their values there.
#[derive(Clone, Copy, Debug)]
struct PointBranches<'a, 'b> {
    list: &'a Steps<'b>,
    duals: &'a [Dual],
    ghost tape: { IsTape list.now },
    ghost within: { length list.now ≤ length duals.now },
}

impl<'a, 'b> ChoiceRows for PointBranches<'a, 'b> {
    ghost lanes = { λ it l. branches_of it.list.now (λ place. (dual_in place it.duals.now).value) };

    #[inline]
    fn row(self, place: usize) -> ChoiceRow {
        point_row_at(self.list, self.duals, place)
    }
}

// The branch that the step at a place takes, in each lane.
#[inline]
fn point_row_at(list: &Steps<'_>, duals: &[Dual], place: usize) -> ChoiceRow
    requires tape { IsTape list.now }
    requires there { place < length list.now }
    requires room { length list.now ≤ length duals.now }
    ensures { (l : ℕ) → l < 8 → choice_in result l
        ≡ choice_at (branches_of list.now (λ place. (dual_in place duals.now).value)) place }
{
    let step = list.step(place as u32);
    let (a, b) = (duals[step.a as usize], duals[step.b as usize]);
    ChoiceRow::all(branch(step.op, a.value, b.value))
}

// The branch that an operation takes where its operands have these values.
#[inline]
fn branch(op: Op, a: Fx, b: Fx) -> Choice
    ensures { result ≡ branch_of op a b }
{
    match op {
        Op::Min => if le(a, b) {
            Choice::Left
        } else {
            Choice::Right
        },
        Op::Max => if le(b, a) {
            Choice::Left
        } else {
            Choice::Right
        },
        _ => Choice::Both,
    }
}
