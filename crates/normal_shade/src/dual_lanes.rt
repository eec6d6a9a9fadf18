// Dual numbers of a list at several points at once, each in its lane.
ghost use Rattle.std.specs.Prelude.{◌≡◌, ◌≤◌, ◌<◌, ◌*◌, ℕ, true, pos, length, if◌then◌else◌};
ghost use Rattle.std.specs.List.{range_with_len, sum_by};
ghost use Rattle.choice_trace.specs.Lanes.{in_lane, number_at, point_in};
ghost use Rattle.fixed_ops.specs.Counts.{RisesBy, points_of};
ghost use Rattle.fixed_ops.specs.Points.{Point};
ghost use Rattle.fixed_ops.specs.Slopes.{flat};
ghost use Rattle.live_clauses.specs.Choices.{has_bit};
ghost use Rattle.live_clauses.specs.Meanings.{sloped_at, tape_meaning};
ghost use Rattle.live_clauses.specs.Steps.{IsStepAt};
ghost use Rattle.normal_shade.specs.DualWork.{derivative_cost as cost_of, derivatives_below, dual_points};
ghost use Rattle.normal_shade.specs.Duals.{AreDuals, HasValues, MarksReached, dual_at, dual_in, dual_of};

use crate::Dual;
use crate::branches::mark_lanes_reached;
use crate::scratch::Scratch;
use crate::slopes::{constant, derivative_cost, none, step_dual};
use choice_trace::{Inputs, evaluate_lanes};
use fixed_ops::{Fx, Op, Tally, count_points};
use live_clauses::{Step, Steps, is_set, with_bit};

/// The values of a list at the points in the first L lanes of the inputs, each with its derivatives and in
/// its lane. The other lanes of the answer mean nothing. What is counted is that of `gradient` at each point.
#[inline]
pub fn gradient_lanes<const L: usize>(
    list: &Steps<'_>,
    inputs: &Inputs<[Fx; 8]>,
    scratch: &mut Scratch,
    tally: &mut Tally,
) -> [Dual; 8]
    requires lanes { L ≤ 8 }
    requires room { length list.now ≤ scratch.old }
    ensures duals { (lane : ℕ) → lane < L
        → dual_in lane result ≡ tape_meaning (sloped_at (point_in lane inputs.now)) list.now }
    ensures room { scratch.new ≡ scratch.old }
    ensures counted { RisesBy tally.old tally.new (points_of
        (sum_by (λ lane. dual_points (point_in lane inputs.now) list.now) (range_with_len 0 L))) }
{
    evaluate_lanes::<L>(list, inputs, &mut scratch.values, tally);
    mark_lanes_reached(
        list,
        &scratch.values,
        first_lanes::<L>(),
        &mut scratch.marks,
    );
    differentiate_lanes::<L>(
        list,
        &scratch.values,
        &scratch.marks,
        &mut scratch.duals,
        tally,
    )
}

// A bit for each of the first L lanes.
#[inline(always)]
fn first_lanes<const L: usize>() -> u8
    requires { L ≤ 8 }
    ensures { (l : ℕ) → l < L → has_bit result l ≡ true }
{
    let mut lanes = 0;
    for lane in 0..L {
        lanes = with_bit(lanes, lane, true);
    }
    lanes
}

// The dual numbers of a list in each of the first L lanes, by the values and the marks of its steps there.
// The operations that the derivatives take are counted.
#[inline]
fn differentiate_lanes<const L: usize>(
    list: &Steps<'_>,
    values: &[[Fx; 8]],
    marks: &[u8],
    duals: &mut [[Dual; 8]],
    tally: &mut Tally,
) -> [Dual; 8]
    requires lanes { L ≤ 8 }
    requires values { length list.now ≤ length values.now }
    requires marks { length list.now ≤ length marks.now }
    requires room { length list.now ≤ length duals.old }
    ensures duals { (lane : ℕ) (p : Point) → lane < L
        → HasValues p list.now (number_at lane values.now)
        → MarksReached p list.now lane marks.now
        → dual_in lane result ≡ tape_meaning (sloped_at p) list.now }
    ensures counted { (at : ℕ → Point)
        → ((lane : ℕ) → lane < L → HasValues (at lane) list.now (number_at lane values.now))
        → ((lane : ℕ) → lane < L → MarksReached (at lane) list.now lane marks.now)
        → RisesBy tally.old tally.new (points_of
        (sum_by (λ lane. derivatives_below (at lane) list.now (length list.now))
        (range_with_len 0 L))) }
{
    let count = differentiate::<L>(list, values, marks, duals);
    count_points(tally, count);
    duals[list.len() as usize - 1]
}

// Writes the dual numbers of the steps of a list that are marked in some lane. Gives how many operations
// the derivatives take in those lanes in which the steps are marked.
fn differentiate<const L: usize>(
    list: &Steps<'_>,
    values: &[[Fx; 8]],
    marks: &[u8],
    duals: &mut [[Dual; 8]],
) -> u64
    requires lanes { L ≤ 8 }
    requires values { length list.now ≤ length values.now }
    requires marks { length list.now ≤ length marks.now }
    requires room { length list.now ≤ length duals.old }
    ensures duals { (lane : ℕ) (p : Point) → lane < L
        → HasValues p list.now (number_at lane values.now)
        → MarksReached p list.now lane marks.now
        → AreDuals p list.now (dual_at lane duals.new) (length list.now) }
    ensures cost { (at : ℕ → Point)
        → ((lane : ℕ) → lane < L → HasValues (at lane) list.now (number_at lane values.now))
        → ((lane : ℕ) → lane < L → MarksReached (at lane) list.now lane marks.now)
        → result ≡ sum_by (λ lane. derivatives_below (at lane) list.now (length list.now))
        (range_with_len 0 L) }
{
    let steps = list.again();
    let len = steps.len();
    let mut count = 0u64;
    for at in 0..len {
        let place = at as usize;
        let reached = marks[place];
        // No lane needs most steps of a long list.
        if reached != 0 {
            let step = steps.step(at);
            let a = &values[step.a as usize];
            let b = &values[step.b as usize];
            let value = &values[place];
            let (earlier, later) = duals.split_at_mut(place);
            write_row::<L>(&step, value, a, b, earlier, &mut later[0]);
            count += row_cost::<L>(step.op, reached, a, b, value);
        }
    }
    count
}

// Writes the dual numbers of a step, whose value and whose operands' values are in these rows, from those
// of the steps before it. Each arm stores its own row.
#[inline(always)]
fn write_row<const L: usize>(
    step: &Step,
    value: &[Fx; 8],
    a: &[Fx; 8],
    b: &[Fx; 8],
    earlier: &[[Dual; 8]],
    row: &mut [Dual; 8],
)
    requires lanes { L ≤ 8 }
    requires stands { IsStepAt (length earlier.now) step.now }
    ensures { (lane : ℕ) → lane < L → dual_in lane row.new ≡ dual_of step.now.op
        (in_lane lane value.now) (in_lane lane a.now) (in_lane lane b.now)
        (dual_at lane earlier.now step.now.a) (dual_at lane earlier.now step.now.b) }
{
    match step.op {
        Op::X => write_leaf::<L>(Op::X, value, row),
        Op::Y => write_leaf::<L>(Op::Y, value, row),
        Op::Z => write_leaf::<L>(Op::Z, value, row),
        Op::Const => write_leaf::<L>(Op::Const, value, row),
        Op::Floor => write_leaf::<L>(Op::Floor, value, row),
        Op::Neg => write_unary::<L>(Op::Neg, step, value, a, earlier, row),
        Op::Square => write_unary::<L>(Op::Square, step, value, a, earlier, row),
        Op::Sqrt => write_unary::<L>(Op::Sqrt, step, value, a, earlier, row),
        Op::Abs => write_unary::<L>(Op::Abs, step, value, a, earlier, row),
        Op::Add => write_binary::<L>(Op::Add, step, value, a, b, earlier, row),
        Op::Sub => write_binary::<L>(Op::Sub, step, value, a, b, earlier, row),
        Op::Mul => write_binary::<L>(Op::Mul, step, value, a, b, earlier, row),
        Op::Div => write_binary::<L>(Op::Div, step, value, a, b, earlier, row),
        Op::Min => write_binary::<L>(Op::Min, step, value, a, b, earlier, row),
        Op::Max => write_binary::<L>(Op::Max, step, value, a, b, earlier, row),
    }
}

// Writes the dual numbers of a step whose derivatives are made of no others.
#[inline(always)]
fn write_leaf<const L: usize>(op: Op, value: &[Fx; 8], row: &mut [Dual; 8])
    requires lanes { L ≤ 8 }
    ensures { (lane : ℕ) → lane < L → dual_in lane row.new
        ≡ dual_of op (in_lane lane value.now) (pos 0) (pos 0) flat flat }
{
    let flat = constant(none());
    for lane in 0..L {
        row[lane] = step_dual(op, value[lane], none(), none(), flat, flat);
    }
}

// Writes those of a step that has one operand.
#[inline(always)]
fn write_unary<const L: usize>(
    op: Op,
    step: &Step,
    value: &[Fx; 8],
    a: &[Fx; 8],
    earlier: &[[Dual; 8]],
    row: &mut [Dual; 8],
)
    requires lanes { L ≤ 8 }
    requires operand { step.now.a < length earlier.now }
    ensures { (lane : ℕ) → lane < L → dual_in lane row.new
        ≡ dual_of op (in_lane lane value.now) (in_lane lane a.now) (in_lane lane a.now)
        (dual_at lane earlier.now step.now.a) (dual_at lane earlier.now step.now.a) }
{
    let da = &earlier[step.a as usize];
    write_lanes::<L>(op, value, a, a, da, da, row);
}

// Writes those of a step that has two operands.
#[inline(always)]
fn write_binary<const L: usize>(
    op: Op,
    step: &Step,
    value: &[Fx; 8],
    a: &[Fx; 8],
    b: &[Fx; 8],
    earlier: &[[Dual; 8]],
    row: &mut [Dual; 8],
)
    requires lanes { L ≤ 8 }
    requires first { step.now.a < length earlier.now }
    requires second { step.now.b < length earlier.now }
    ensures { (lane : ℕ) → lane < L → dual_in lane row.new
        ≡ dual_of op (in_lane lane value.now) (in_lane lane a.now) (in_lane lane b.now)
        (dual_at lane earlier.now step.now.a) (dual_at lane earlier.now step.now.b) }
{
    let da = &earlier[step.a as usize];
    let db = &earlier[step.b as usize];
    write_lanes::<L>(op, value, a, b, da, db, row);
}

// Writes the dual numbers of an operation, lane by lane.
#[inline(always)]
fn write_lanes<const L: usize>(
    op: Op,
    value: &[Fx; 8],
    a: &[Fx; 8],
    b: &[Fx; 8],
    da: &[Dual; 8],
    db: &[Dual; 8],
    row: &mut [Dual; 8],
)
    requires lanes { L ≤ 8 }
    ensures { (lane : ℕ) → lane < L → dual_in lane row.new
        ≡ dual_of op (in_lane lane value.now) (in_lane lane a.now) (in_lane lane b.now)
        (dual_in lane da.now) (dual_in lane db.now) }
{
    for lane in 0..L {
        row[lane] = step_dual(op, value[lane], a[lane], b[lane], da[lane], db[lane]);
    }
}

// How many operations the derivatives of a step take in those of the first L lanes in which it is reached.
#[inline(always)]
fn row_cost<const L: usize>(op: Op, reached: u8, a: &[Fx; 8], b: &[Fx; 8], value: &[Fx; 8]) -> u64
    requires lanes { L ≤ 8 }
    ensures cost { result ≡ sum_by (λ lane. if has_bit reached lane
        then cost_of op (in_lane lane a.now) (in_lane lane b.now) (in_lane lane value.now) else 0)
        (range_with_len 0 L) }
    ensures few { result ≤ 9 * L }
{
    let mut count = 0u64;
    for lane in 0..L {
        if is_set(reached, lane) {
            count += derivative_cost(op, a[lane], b[lane], value[lane]);
        }
    }
    count
}
