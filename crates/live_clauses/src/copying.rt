// Up a list from mark to mark: its live steps, numbered anew.
ghost use Rattle.std.specs.Prelude.{◌≡◌, ◌+◌, ◌<◌, ◌≤◌, ◌++◌, [], ◌∷◌, true, ℤ, List, map, length, slice_index, take, if◌then◌else◌};
ghost use Rattle.fixed_ops.specs.Arity.{arity_of};
ghost use Rattle.live_clauses.specs.Choices.{AreChoices};
ghost use Rattle.live_clauses.specs.Live.{chosen, is_both, live_of, renumbered};
ghost use Rattle.live_clauses.specs.Marks.{AreMarks};
ghost use Rattle.live_clauses.specs.Packed.{first_of, unpacked};
ghost use Rattle.live_clauses.specs.Steps.{IsTape};

use crate::Choices;
use crate::choice_row::is_set;
use crate::marked::next_marked;
use crate::packed_step::PackedStep;
use fixed_ops::Fx;
use interval_ops::Choice;

// Writes the live steps of a list to the front of a memory, and gives how many there are. A step is
// needed where its byte of the marks has the lane's bit. The new numbers of the needed steps are kept
// on the way; what the memory for them holds before and after means nothing.
// Needed steps stand in runs, so those between are passed many at a time.
pub(crate) fn copy_live<C: Choices>(
    steps: &[PackedStep],
    constants: &[Fx],
    choices: C,
    marks: &[u8],
    lane: usize,
    numbers: &mut [u16],
    new: &mut [PackedStep],
) -> usize
    requires lane { lane < 8 }
    requires tape { IsTape (map (unpacked constants.now) steps.now) }
    requires enough { length steps.now ≤ length (C.list choices) }
    requires choices { AreChoices (map (unpacked constants.now) steps.now) (C.list choices) }
    requires marks { AreMarks lane (map (unpacked constants.now) steps.now) (C.list choices)
        marks.now }
    requires marked { length steps.now ≤ length marks.now }
    requires numbers { length steps.now ≤ length numbers.old }
    requires table { length constants.now ≤ length numbers.old }
    requires room { length steps.now ≤ length new.old }
    ensures few { result ≤ length steps.now }
    ensures copied { map (unpacked constants.now) (take result new.new)
        ≡ live_of (map (unpacked constants.now) steps.now) (C.list choices) }
{
    let mut count = 0;
    let mut at = 0;
    while at < steps.len() {
        if is_set(marks[at], lane) {
            let (number, after) = copy_step(&steps[at], choices.at(at), numbers, new, count);
            numbers[at] = number;
            count = after;
            at += 1;
        } else {
            at = next_marked(marks, lane, at + 1, steps.len());
        }
    }
    count
}

// Puts a step behind so many others where it stands for itself. Gives the number of what stands for
// it, and how many steps there are then.
#[inline(always)]
fn copy_step(
    step: &PackedStep,
    choice: Choice,
    numbers: &[u16],
    new: &mut [PackedStep],
    count: usize,
) -> (u16, usize)
    requires a { step.now.a < length numbers.now }
    requires b { step.now.b < length numbers.now }
    requires none { arity_of step.now.op ≡ 0 → first_of step.now ≡ 0 }
    requires few { count ≤ 65535 }
    requires room { is_both choice ≡ true → count < length new.old }
    ensures number { result.0 ≡ chosen choice (slice_index numbers.now step.now.a)
        (slice_index numbers.now step.now.b) count }
    ensures count { result.1 ≡ count + (if is_both choice then 1 else 0) }
    ensures copied { (constants : List ℤ) → map (unpacked constants) (take result.1 new.new)
        ≡ map (unpacked constants) (take count new.old) ++ (if is_both choice
        then renumbered (λ place. slice_index numbers.now place) (unpacked constants step.now) ∷ []
        else []) }
{
    match choice {
        Choice::Left => (numbers[step.a as usize], count),
        Choice::Right => (numbers[step.b as usize], count),
        Choice::Both => {
            step.renumber_to(numbers, &mut new[count]);
            (count as u16, count + 1)
        }
    }
}
