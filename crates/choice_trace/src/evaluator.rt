// The value of a list over a domain.
ghost use Rattle.std.specs.Prelude.{◌≤◌, ◌≡◌, drop, length};
ghost use Rattle.fixed_ops.specs.Counts.{RisesWithin, times};
ghost use Rattle.fixed_ops.specs.Points.{Point};
ghost use Rattle.live_clauses.specs.Steps.{tape_value};
ghost use Rattle.choice_trace.specs.Meaning.{StandForPoint};

use crate::operands::operands;
use crate::{Domain, Inputs};
use fixed_ops::Tally;
use live_clauses::Tape;

/// An element that stands for the list's value at every point that the inputs stand for. Each step
/// is applied once, in order. `regs` has room for one element a step.
#[inline]
pub fn evaluate<D: Domain>(tape: &Tape, inputs: Inputs<D>, regs: &mut [D], tally: &mut Tally) -> D
    requires room { length tape.now ≤ length regs.old }
    ensures stands { (p : Point) → StandForPoint D.stands_for inputs p
        → D.stands_for result (tape_value p tape.now) }
    ensures rest { drop (length tape.now) regs.new ≡ drop (length tape.now) regs.old }
    ensures counted { RisesWithin tally.old tally.new
        (times (length tape.now) D.least) (times (length tape.now) D.most) }
{
    let steps = tape.steps();
    let len = steps.len();
    // Counts that no other call sees stay in registers.
    let mut work = Tally::new();
    for at in 0..len {
        let step = steps.step(at);
        let (a, b) = operands(&step, &inputs, D::constant(step.value), regs);
        regs[at as usize] = D::apply(step.op, a, b, &mut work);
    }
    tally.join(&work);
    regs[len as usize - 1]
}
