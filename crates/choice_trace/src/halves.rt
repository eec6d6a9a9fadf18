// The hulls and the choices of a list over several regions at once.
ghost use Rattle.std.specs.Prelude.{◌≡◌, ◌≤◌, ◌<◌, ◌↔◌, ◌*◌, ◌||◌, ℕ, false, drop, length, slice_index_or, take};
ghost use Rattle.fixed_ops.specs.Arity.{arity_of};
ghost use Rattle.fixed_ops.specs.Points.{Point};
ghost use Rattle.interval_ops.specs.Choices.{choice_of};
ghost use Rattle.interval_ops.specs.HullCounts.{CountsHulls};
ghost use Rattle.interval_ops.specs.Hulls.{hull_of};
ghost use Rattle.live_clauses.specs.Choices.{AreChoices, AreRight, choice_at, choice_in, lane};
ghost use Rattle.choice_trace.specs.Halves.{is_made, flag_in, region_in, region_of, row_in};
ghost use Rattle.choice_trace.specs.Hulls.{IsIn, choices_over, hull_in, step_hull, tape_hull};
ghost use Rattle.choice_trace.specs.Laws.{AreRanges};

use crate::Inputs;
use fixed_ops::{Fx, Op, Tally};
use interval_ops::{Choice, Region, Span, choose, span_apply};
use live_clauses::{ChoiceRow, Step, Steps};

/// What a list is over some regions, one lane for each.
#[derive(Clone, Copy, Debug, PartialEq, Eq)]
pub struct Halves<const L: usize> {
    /// The hull of the list over each region.
    pub hulls: [Span; L],
    /// Whether some step chooses an operand over each region.
    pub chosen: [bool; L],
}

/// The hulls of a list over up to four regions at once, with the choices of each step over each of
/// them, which are right at every point there. `regs` has room for one row of ranges a step, and
/// `choices` for one row of choices; the lane of a region in a row is its place among the regions.
#[inline]
pub fn trace_halves<const L: usize>(
    list: &Steps<'_>,
    regions: &[Region; L],
    regs: &mut [[Span; 4]],
    choices: &mut [ChoiceRow],
    tally: &mut Tally,
) -> Halves<L>
    requires lanes { L ≤ 4 }
    requires regs { length list.now ≤ length regs.old }
    requires choices { length list.now ≤ length choices.old }
    ensures hulls { (l : ℕ) → l < L
        → hull_in result.hulls l ≡ tape_hull (region_in regions.now l) list.now }
    ensures choices { (l : ℕ) → l < L → take (length list.now) (lane l choices.new)
        ≡ choices_over (region_in regions.now l) list.now }
    ensures only { (l : ℕ) → l < L → AreChoices list.now (lane l choices.new) }
    ensures right { (l : ℕ) (p : Point) → l < L → IsIn (region_in regions.now l) p
        → AreRight p list.now (lane l choices.new) }
    ensures chosen { (l : ℕ) → l < L → (flag_in result.chosen l ≡ false)
        ↔ ((place : ℕ) → choice_at (choices_over (region_in regions.now l) list.now) place
        ≡ Choice.Both) }
    ensures regs_rest { drop (length list.now) regs.new ≡ drop (length list.now) regs.old }
    ensures choices_rest { drop (length list.now) choices.new
        ≡ drop (length list.now) choices.old }
    ensures counted { CountsHulls (L * length list.now) tally.old tally.new }
{
    in_order(regions);
    let inputs = ranges(regions);
    let steps = list.again();
    let len = steps.len();
    // Counts that no other call sees stay in registers.
    let mut work = Tally::new();
    let mut chosen = [false; L];
    for at in 0..len {
        let step = steps.step(at);
        let (earlier, later) = regs.split_at_mut(at as usize);
        let row = &mut choices[at as usize];
        trace_step(
            &step,
            &inputs,
            earlier,
            &mut later[0],
            row,
            &mut chosen,
            &mut work,
        );
    }
    tally.join(&work);
    Halves {
        hulls: first_lanes(&regs[len as usize - 1]),
        chosen,
    }
}

// The ranges of the regions along each axis, lane by lane.
#[inline]
fn ranges<const L: usize>(regions: &[Region; L]) -> Inputs<[Span; 4]>
    requires { L ≤ 4 }
    ensures { (l : ℕ) → l < L → region_of result l ≡ region_in regions.now l }
{
    let all = Span::new(Fx::from_raw(-Fx::MAX_RAW), Fx::from_raw(Fx::MAX_RAW));
    let (mut x, mut y, mut z) = ([all; 4], [all; 4], [all; 4]);
    for l in 0..L {
        let region = regions[l];
        x[l] = region.x;
        y[l] = region.y;
        z[l] = region.z;
    }
    Inputs { x, y, z }
}

// The ends of each range of the regions are in order.
#[inline]
fn in_order<const L: usize>(regions: &[Region; L])
    ensures { (l : ℕ) → l < L → AreRanges (region_in regions.now l) }
{
    for l in 0..L {
        let region = &regions[l];
        let _ends = (region.x.lo(), region.y.lo(), region.z.lo());
    }
}

// The lanes of a row that stand for regions.
#[inline]
fn first_lanes<const L: usize>(row: &[Span; 4]) -> [Span; L]
    requires { L ≤ 4 }
    ensures { (l : ℕ) → l < L → hull_in result l ≡ hull_in row.now l }
{
    let mut lanes = [row[0]; L];
    for l in 0..L {
        lanes[l] = row[l];
    }
    lanes
}

// One step over each region: its hulls, its choices, and whether it chooses an operand. An operand
// that the operation lacks is not read.
#[inline(always)]
fn trace_step<const L: usize>(
    step: &Step,
    inputs: &Inputs<[Span; 4]>,
    earlier: &[[Span; 4]],
    hulls: &mut [Span; 4],
    choices: &mut ChoiceRow,
    chosen: &mut [bool; L],
    work: &mut Tally,
)
    requires lanes { L ≤ 4 }
    requires first { 0 < arity_of step.now.op → step.now.a < length earlier.now }
    requires second { 1 < arity_of step.now.op → step.now.b < length earlier.now }
    ensures hulls { (l : ℕ) → l < L → hull_in hulls.new l
        ≡ step_hull step.now.op (region_of inputs.now l) step.now.value
        (hull_in (row_in earlier.now step.now.a) l) (hull_in (row_in earlier.now step.now.b) l) }
    ensures choices { (l : ℕ) → l < L → choice_in choices.new l
        ≡ choice_of step.now.op
        (hull_in (row_in earlier.now step.now.a) l) (hull_in (row_in earlier.now step.now.b) l) }
    ensures chosen { (l : ℕ) → l < L → flag_in chosen.new l
        ≡ (flag_in chosen.old l || is_made (choice_in choices.new l)) }
    ensures counted { CountsHulls L work.old work.new }
{
    let (a, b) = (step.a as usize, step.b as usize);
    *choices = ChoiceRow::both();
    match step.op {
        Op::X => hull_row::<L>(Op::X, &inputs.x, &inputs.x, hulls, work),
        Op::Y => hull_row::<L>(Op::Y, &inputs.y, &inputs.y, hulls, work),
        Op::Z => hull_row::<L>(Op::Z, &inputs.z, &inputs.z, hulls, work),
        Op::Const => {
            let value = Span::new(step.value, step.value);
            let row = [value; 4];
            hull_row::<L>(Op::Const, &row, &row, hulls, work);
        }
        Op::Neg => hull_row::<L>(Op::Neg, &earlier[a], &earlier[a], hulls, work),
        Op::Square => hull_row::<L>(Op::Square, &earlier[a], &earlier[a], hulls, work),
        Op::Sqrt => hull_row::<L>(Op::Sqrt, &earlier[a], &earlier[a], hulls, work),
        Op::Abs => hull_row::<L>(Op::Abs, &earlier[a], &earlier[a], hulls, work),
        Op::Floor => hull_row::<L>(Op::Floor, &earlier[a], &earlier[a], hulls, work),
        Op::Add => hull_row::<L>(Op::Add, &earlier[a], &earlier[b], hulls, work),
        Op::Sub => hull_row::<L>(Op::Sub, &earlier[a], &earlier[b], hulls, work),
        Op::Mul => hull_row::<L>(Op::Mul, &earlier[a], &earlier[b], hulls, work),
        Op::Div => hull_row::<L>(Op::Div, &earlier[a], &earlier[b], hulls, work),
        Op::Min => {
            *choices = chosen_row(Op::Min, &earlier[a], &earlier[b], hulls, chosen, work);
        }
        Op::Max => {
            *choices = chosen_row(Op::Max, &earlier[a], &earlier[b], hulls, chosen, work);
        }
    }
}

// The hulls of an operation over two rows of ranges, lane by lane.
#[inline(always)]
fn hull_row<const L: usize>(
    op: Op,
    a: &[Span; 4],
    b: &[Span; 4],
    hulls: &mut [Span; 4],
    work: &mut Tally,
)
    requires { L ≤ 4 }
    ensures hulls { (l : ℕ) → l < L
        → hull_in hulls.new l ≡ hull_of op (hull_in a.now l) (hull_in b.now l) }
    ensures counted { CountsHulls L work.old work.new }
{
    for l in 0..L {
        hulls[l] = span_apply(op, a[l], b[l], work);
    }
}

// The same of a minimum or a maximum. Gives the choices, and sets the flags of the lanes where one is
// made.
#[inline(always)]
fn chosen_row<const L: usize>(
    op: Op,
    a: &[Span; 4],
    b: &[Span; 4],
    hulls: &mut [Span; 4],
    chosen: &mut [bool; L],
    work: &mut Tally,
) -> ChoiceRow
    requires { L ≤ 4 }
    ensures hulls { (l : ℕ) → l < L
        → hull_in hulls.new l ≡ hull_of op (hull_in a.now l) (hull_in b.now l) }
    ensures choices { (l : ℕ) → l < L
        → choice_in result l ≡ choice_of op (hull_in a.now l) (hull_in b.now l) }
    ensures chosen { (l : ℕ) → l < L → flag_in chosen.new l
        ≡ (flag_in chosen.old l || is_made (choice_of op (hull_in a.now l) (hull_in b.now l))) }
    ensures counted { CountsHulls L work.old work.new }
{
    let mut row = ChoiceRow::both();
    for l in 0..L {
        let (left, right) = (a[l], b[l]);
        let choice = choose(op, left, right);
        row = row.with(l, choice);
        chosen[l] |= made(choice);
        hulls[l] = span_apply(op, left, right, work);
    }
    row
}

// Whether an operand is chosen.
#[inline(always)]
fn made(choice: Choice) -> bool
    ensures { result ≡ is_made choice }
{
    match choice {
        Choice::Left | Choice::Right => true,
        Choice::Both => false,
    }
}
