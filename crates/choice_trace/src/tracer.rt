// The hulls and the choices of a list over a region.
ghost use Rattle.std.specs.Prelude.{◌≡◌, ◌≤◌, drop, length, take};
ghost use Rattle.fixed_ops.specs.Points.{Point};
ghost use Rattle.interval_ops.specs.HullCounts.{CountsHulls};
ghost use Rattle.interval_ops.specs.Spans.{Holds};
ghost use Rattle.live_clauses.specs.Choices.{AreChoices, AreRight};
ghost use Rattle.live_clauses.specs.Steps.{tape_value};
ghost use Rattle.choice_trace.specs.Hulls.{IsIn, choices_over, tape_hull};

use crate::Inputs;
use crate::operands::operands;
use fixed_ops::Tally;
use interval_ops::{Choice, Region, Span, choose, span_apply};
use live_clauses::{Steps, Tape};

/// The hull of a list over a region, with the choice of each step, which is right at every point of
/// the region. `regs` has room for one range a step, and `choices` for one choice.
#[inline]
pub fn trace(
    tape: &Tape,
    region: Region,
    regs: &mut [Span],
    choices: &mut [Choice],
    tally: &mut Tally,
) -> Span
    requires regs { length tape.now ≤ length regs.old }
    requires choices { length tape.now ≤ length choices.old }
    ensures hull { result ≡ tape_hull region tape.now }
    ensures holds { (p : Point) → IsIn region p → Holds result (tape_value p tape.now) }
    ensures choices { take (length tape.now) choices.new ≡ choices_over region tape.now }
    ensures only { AreChoices tape.now choices.new }
    ensures right { (p : Point) → IsIn region p → AreRight p tape.now choices.new }
    ensures regs_rest { drop (length tape.now) regs.new ≡ drop (length tape.now) regs.old }
    ensures choices_rest { drop (length tape.now) choices.new
        ≡ drop (length tape.now) choices.old }
    ensures counted { CountsHulls (length tape.now) tally.old tally.new }
{
    trace_steps(&tape.steps(), region, regs, choices, tally)
}

/// The same of a list that is given by its steps.
#[inline]
pub fn trace_steps(
    list: &Steps<'_>,
    region: Region,
    regs: &mut [Span],
    choices: &mut [Choice],
    tally: &mut Tally,
) -> Span
    requires regs { length list.now ≤ length regs.old }
    requires choices { length list.now ≤ length choices.old }
    ensures hull { result ≡ tape_hull region list.now }
    ensures holds { (p : Point) → IsIn region p → Holds result (tape_value p list.now) }
    ensures choices { take (length list.now) choices.new ≡ choices_over region list.now }
    ensures only { AreChoices list.now choices.new }
    ensures right { (p : Point) → IsIn region p → AreRight p list.now choices.new }
    ensures regs_rest { drop (length list.now) regs.new ≡ drop (length list.now) regs.old }
    ensures choices_rest { drop (length list.now) choices.new
        ≡ drop (length list.now) choices.old }
    ensures counted { CountsHulls (length list.now) tally.old tally.new }
{
    // The ends of a range are in order.
    let _ends = (region.x.lo(), region.y.lo(), region.z.lo());
    let ranges = Inputs {
        x: region.x,
        y: region.y,
        z: region.z,
    };
    let steps = list.again();
    let len = steps.len();
    // Counts that no other call sees stay in registers.
    let mut work = Tally::new();
    for at in 0..len {
        let step = steps.step(at);
        let constant = Span::new(step.value, step.value);
        let (a, b) = operands(&step, &ranges, constant, regs);
        choices[at as usize] = choose(step.op, a, b);
        regs[at as usize] = span_apply(step.op, a, b, &mut work);
    }
    tally.join(&work);
    regs[len as usize - 1]
}
