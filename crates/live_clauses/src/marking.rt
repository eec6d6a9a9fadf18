// Down a list from its last step: what is needed.
ghost use Rattle.std.specs.Prelude.{◌≡◌, ◌<◌, ◌≤◌, ◌-◌, ◌==◌, ℕ, ℤ, true, List, length, ◌&&◌};
ghost use Rattle.fixed_ops.specs.Arity.{arity_of};
ghost use Rattle.live_clauses.specs.Choices.{AreChoices, choice_in, has_bit, lane};
ghost use Rattle.live_clauses.specs.Live.{hands_on};
ghost use Rattle.live_clauses.specs.Marks.{AreMarks, Marks, is_marked};
ghost use Rattle.live_clauses.specs.Packed.{first_of, unpacked};
ghost use Rattle.live_clauses.specs.Steps.{IsTape};

use crate::choices::ChoiceRows;
use crate::packed_step::{PackedStep, kept_if};
use crate::{ChoiceRow, Steps};
use fixed_ops::arity;

// The first lane alone.
pub(crate) const ONE_LANE: u8 = 1;

/// Marks the steps of a list that are needed, in each lane that `lanes` has a bit for: in the byte of a
/// step the bit of each lane in which the last step needs it.
pub fn mark_lanes(list: &Steps<'_>, rows: &[ChoiceRow], lanes: u8, marks: &mut [u8])
    requires enough { length list.now ≤ length rows.now }
    requires choices { (l : ℕ) → l < 4 → has_bit lanes l ≡ true
        → AreChoices list.now (lane l rows.now) }
    requires room { length list.now ≤ length marks.old }
    ensures { (l : ℕ) → l < 4 → has_bit lanes l ≡ true
        → AreMarks l list.now (lane l rows.now) marks.new }
{
    mark_rows(list, rows, lanes, marks);
}

/// Marks the steps of a list that are needed, in each of up to eight lanes that `lanes` has a bit for, by
/// choices that are asked for step by step: only those of steps that some lane needs.
#[inline]
pub fn mark_rows<R: ChoiceRows>(list: &Steps<'_>, rows: R, lanes: u8, marks: &mut [u8])
    requires enough { (l : ℕ) → l < 8 → length list.now ≤ length (R.lanes rows l) }
    requires room { length list.now ≤ length marks.old }
    ensures { (l : ℕ) → l < 8 → has_bit lanes l ≡ true
        → AreMarks l list.now (R.lanes rows l) marks.new }
{
    let (steps, _) = list.packed();
    mark_last(marks, steps.len(), lanes);
    let mut at = steps.len();
    while at > 0 {
        at -= 1;
        let asked = marks[at];
        if asked != 0 {
            visit(&steps[at], rows.row(at), asked, marks);
        }
    }
}

// Marks the last of so many places, and no other.
#[inline]
fn mark_last(marks: &mut [u8], places: usize, lanes: u8)
    requires some { 0 < places }
    requires room { places ≤ length marks.old }
    ensures { (l place : ℕ) → place < places
        → is_marked l marks.new place ≡ (has_bit lanes l && place == places - 1) }
{
    marks[..places].fill(0);
    marks[places - 1] = lanes;
}

// Marks what a step needs in the lanes in which it is needed itself.
#[inline(always)]
fn visit(step: &PackedStep, row: ChoiceRow, asked: u8, marks: &mut [u8])
    requires a { first_of step.now < length marks.old }
    requires b { step.now.b < length marks.old }
    requires none { arity_of step.now.op ≡ 0 → first_of step.now ≡ 0 }
    ensures { (constants : List ℤ) (l : ℕ) → l < 8 → Marks l marks.old marks.new
        (λ place. has_bit asked l && hands_on (unpacked constants step.now) (choice_in row l) place) }
{
    let operands = arity(step.op);
    // What a constant has there is no place in the list.
    let a = kept_if(operands > 0, step.a) as usize;
    mark_in(marks, a, asked & row.first(operands > 0));
    mark_in(marks, step.b as usize, asked & row.second(operands > 1));
}

// Marks a place in some lanes.
#[inline(always)]
fn mark_in(marks: &mut [u8], place: usize, lanes: u8)
    requires { place < length marks.old }
    ensures { (l : ℕ) → l < 8
        → Marks l marks.old marks.new (λ other. has_bit lanes l && other == place) }
{
    marks[place] |= lanes;
}
