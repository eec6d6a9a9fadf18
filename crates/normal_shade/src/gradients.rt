// Forward-mode differentiation of lists: values come first, and then the derivatives of those steps alone
// that the last one reaches by the branches taken at the point.
ghost use Rattle.std.specs.Prelude.{◌≡◌, ◌≤◌, ◌*◌, drop, length};
ghost use Rattle.fixed_ops.specs.Counts.{RisesBy, points_of};
ghost use Rattle.fixed_ops.specs.Points.{Point};
ghost use Rattle.live_clauses.specs.Meanings.{sloped_at, tape_meaning};
ghost use Rattle.normal_shade.specs.DualWork.{derivatives_below, dual_points};
ghost use Rattle.normal_shade.specs.Duals.{AreDuals, HasValues, MarksReached, dual_in};

use crate::Dual;
use crate::branches::mark_reached;
use crate::slopes::{constant, derivative_cost, step_dual, step_value};
use fixed_ops::{Fx, Tally, count_points};
use live_clauses::{Steps, Tape, is_set};

// The most steps that a list has. The marks of so many stand on the stack, since no memory is asked for.
const LONGEST: usize = 65_535;

/// The value of a list at a point, with its derivatives along the three axes. One evaluation is counted for
/// the value of each step, and for each step that the last one reaches by the branches taken at the point
/// those of its derivatives. `regs` has room for one element a step.
pub fn gradient(tape: &Tape, x: Fx, y: Fx, z: Fx, regs: &mut [Dual], tally: &mut Tally) -> Dual
    requires room { length tape.now ≤ length regs.old }
    ensures slopes { result
        ≡ tape_meaning (sloped_at (record { x = x; y = y; z = z })) tape.now }
    ensures rest { drop (length tape.now) regs.new ≡ drop (length tape.now) regs.old }
    ensures counted { RisesBy tally.old tally.new
        (points_of (dual_points (record { x = x; y = y; z = z }) tape.now)) }
{
    let list = tape.steps();
    let len = list.len();
    write_values(&list, x, y, z, regs);
    let mut marks = [0u8; LONGEST];
    mark_reached(&list, regs, &mut marks);
    let count = write_derivatives(&list, &marks, regs);
    count_points(tally, u64::from(len) + count);
    regs[len as usize - 1]
}

// Writes the values of the steps of a list at a point.
fn write_values(list: &Steps<'_>, x: Fx, y: Fx, z: Fx, duals: &mut [Dual])
    requires room { length list.now ≤ length duals.old }
    ensures values { HasValues (record { x = x; y = y; z = z }) list.now
        (λ place. (dual_in place duals.new).value) }
    ensures rest { drop (length list.now) duals.new ≡ drop (length list.now) duals.old }
{
    let steps = list.again();
    let len = steps.len();
    for at in 0..len {
        let step = steps.step(at);
        let (a, b) = (duals[step.a as usize], duals[step.b as usize]);
        duals[at as usize] = constant(step_value(&step, x, y, z, a.value, b.value));
    }
}

// Gives the marked steps of a list, whose values stand, their derivatives. Gives how many operations that
// takes.
fn write_derivatives(list: &Steps<'_>, marks: &[u8], duals: &mut [Dual]) -> u64
    requires marks { length list.now ≤ length marks.now }
    requires room { length list.now ≤ length duals.old }
    ensures duals { (p : Point)
        → HasValues p list.now (λ place. (dual_in place duals.old).value)
        → MarksReached p list.now 0 marks.now
        → AreDuals p list.now (λ place. dual_in place duals.new) (length list.now) }
    ensures cost { (p : Point)
        → HasValues p list.now (λ place. (dual_in place duals.old).value)
        → MarksReached p list.now 0 marks.now
        → result ≡ derivatives_below p list.now (length list.now) }
    ensures few { result ≤ 9 * length list.now }
    ensures rest { drop (length list.now) duals.new ≡ drop (length list.now) duals.old }
{
    let steps = list.again();
    let len = steps.len();
    let mut count = 0u64;
    for at in 0..len {
        let place = at as usize;
        if is_set(marks[place], 0) {
            let step = steps.step(at);
            let (da, db) = (duals[step.a as usize], duals[step.b as usize]);
            let here = duals[place];
            let (a, b, value) = (da.value, db.value, here.value);
            duals[place] = step_dual(step.op, value, a, b, da, db);
            count += derivative_cost(step.op, a, b, value);
        }
    }
    count
}
