// The values of a list at several points at once.
ghost use Rattle.std.specs.Prelude.{◌≤◌, ◌<◌, ◌≡◌, ◌*◌, ℕ, drop, length};
ghost use Rattle.fixed_ops.specs.Counts.{RisesBy, points_of};
ghost use Rattle.fixed_ops.specs.Operations.{op_result};
ghost use Rattle.live_clauses.specs.Steps.{IsStepAt, tape_value, value_at};
ghost use Rattle.choice_trace.specs.Lanes.{in_lane, lane_value, number_at, point_in};

use crate::Inputs;
use fixed_ops::{Fx, Op, Tally, apply, count_points};
use live_clauses::{Step, Steps};

/// The values of a list at the points of the first L lanes of the inputs, each in its lane. The
/// other lanes of the answer mean nothing. Each step is applied once a lane, in order. `regs` has
/// room for one row of numbers a step, and keeps the values of all steps.
#[inline]
pub fn evaluate_lanes<const L: usize>(
    list: &Steps<'_>,
    inputs: &Inputs<[Fx; 8]>,
    regs: &mut [[Fx; 8]],
    tally: &mut Tally,
) -> [Fx; 8]
    requires lanes { L ≤ 8 }
    requires room { length list.now ≤ length regs.old }
    ensures values { (lane : ℕ) → lane < L
        → in_lane lane result ≡ tape_value (point_in lane inputs.now) list.now }
    ensures rows { (lane place : ℕ) → lane < L → place < length list.now
        → number_at lane regs.new place ≡ value_at (point_in lane inputs.now) list.now place }
    ensures rest { drop (length list.now) regs.new ≡ drop (length list.now) regs.old }
    ensures counted { RisesBy tally.old tally.new (points_of (L * length list.now)) }
{
    let steps = list.again();
    let len = steps.len();
    for at in 0..len {
        let (earlier, later) = regs.split_at_mut(at as usize);
        write_row::<L>(steps.step(at), inputs, earlier, &mut later[0]);
    }
    count_points(tally, L as u64 * u64::from(len));
    regs[len as usize - 1]
}

// Writes the numbers of a step, from those of the steps before it. Each arm stores its own row.
#[inline(always)]
fn write_row<const L: usize>(
    step: Step,
    inputs: &Inputs<[Fx; 8]>,
    earlier: &[[Fx; 8]],
    row: &mut [Fx; 8],
)
    requires lanes { L ≤ 8 }
    requires stands { IsStepAt (length earlier.now) step }
    ensures { (lane : ℕ) → lane < L
        → in_lane lane row.new ≡ lane_value lane inputs.now earlier.now step }
{
    match step.op {
        Op::X => *row = inputs.x,
        Op::Y => *row = inputs.y,
        Op::Z => *row = inputs.z,
        Op::Const => {
            let constants = [step.value; 8];
            *row = constants;
        }
        Op::Neg => write_unary::<L>(Op::Neg, step, earlier, row),
        Op::Square => write_unary::<L>(Op::Square, step, earlier, row),
        Op::Sqrt => write_unary::<L>(Op::Sqrt, step, earlier, row),
        Op::Abs => write_unary::<L>(Op::Abs, step, earlier, row),
        Op::Floor => write_unary::<L>(Op::Floor, step, earlier, row),
        Op::Add => write_binary::<L>(Op::Add, step, earlier, row),
        Op::Sub => write_binary::<L>(Op::Sub, step, earlier, row),
        Op::Mul => write_binary::<L>(Op::Mul, step, earlier, row),
        Op::Div => write_binary::<L>(Op::Div, step, earlier, row),
        Op::Min => write_binary::<L>(Op::Min, step, earlier, row),
        Op::Max => write_binary::<L>(Op::Max, step, earlier, row),
    }
}

// Writes the results of an operation that has one operand.
#[inline(always)]
fn write_unary<const L: usize>(op: Op, step: Step, earlier: &[[Fx; 8]], row: &mut [Fx; 8])
    requires lanes { L ≤ 8 }
    requires operand { step.a < length earlier.now }
    ensures { (lane : ℕ) → lane < L → in_lane lane row.new
        ≡ op_result op (number_at lane earlier.now step.a) (number_at lane earlier.now step.a) }
{
    let a = &earlier[step.a as usize];
    write_results::<L>(op, a, a, row);
}

// Writes the results of an operation that has two operands.
#[inline(always)]
fn write_binary<const L: usize>(op: Op, step: Step, earlier: &[[Fx; 8]], row: &mut [Fx; 8])
    requires lanes { L ≤ 8 }
    requires first { step.a < length earlier.now }
    requires second { step.b < length earlier.now }
    ensures { (lane : ℕ) → lane < L → in_lane lane row.new
        ≡ op_result op (number_at lane earlier.now step.a) (number_at lane earlier.now step.b) }
{
    let a = &earlier[step.a as usize];
    let b = &earlier[step.b as usize];
    write_results::<L>(op, a, b, row);
}

// Writes the results of an operation on two rows, lane by lane.
#[inline(always)]
fn write_results<const L: usize>(op: Op, a: &[Fx; 8], b: &[Fx; 8], row: &mut [Fx; 8])
    requires { L ≤ 8 }
    ensures { (lane : ℕ) → lane < L
        → in_lane lane row.new ≡ op_result op (in_lane lane a.now) (in_lane lane b.now) }
{
    // What each call counts is counted once a list.
    let mut unseen = Tally::new();
    for lane in 0..L {
        row[lane] = apply(op, a[lane], b[lane], &mut unseen);
    }
}
