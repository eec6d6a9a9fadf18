// The live list of a list.
ghost use Rattle.std.specs.Prelude.{◌≡◌, ◌≤◌, length, map, take, IfOk, OnOk};
ghost use Rattle.fixed_ops.specs.Points.{Point};
ghost use Rattle.live_clauses.specs.Choices.{AreChoices, AreRight};
ghost use Rattle.live_clauses.specs.Live.{live_of};
ghost use Rattle.live_clauses.specs.Packed.{unpacked};
ghost use Rattle.live_clauses.specs.Steps.{IsTape, tape_value};

use crate::choices::EachLane;
use crate::copying::copy_live;
use crate::marking::{ONE_LANE, mark_rows};
use crate::packed_step::PackedStep;
use crate::{Choices, Steps, Tape};
use fixed_ops::Fx;
use interval_ops::Choice;
use std::alloc::{AllocError, Global};
use std::rc::RcSlice;

/// The live list of a list under choices: the steps that its last step needs where each choice is
/// right, numbered anew. There is a choice for each step, which is Both where the step is neither a
/// minimum nor a maximum. Where every step is live the same steps are shared on, and nothing is
/// made but scratch memory.
pub fn prune(alloc: Global, tape: &Tape, choices: &[Choice]) -> Result<Tape, AllocError>
    requires enough { length tape.now ≤ length choices.now }
    requires choices { AreChoices tape.now choices.now }
    ensures live { IfOk result (λ new. new ≡ live_of tape.now choices.now) }
    ensures value { IfOk result (λ new. (p : Point) → AreRight p tape.now choices.now
        → tape_value p new ≡ tape_value p tape.now) }
{
    let (steps, constants) = tape.packed();
    let (mut marks, mut numbers) = (Vec::new(alloc), Vec::new(alloc));
    let mut live = Vec::new(alloc);
    shorten(
        steps,
        constants.as_slice(),
        choices,
        &mut marks,
        &mut numbers,
        &mut live,
    )?;
    if live.len() == steps.len() {
        return tape.share();
    }
    Ok(Tape::from_packed(RcSlice::from_vec(live)?, constants.clone()?))
}

// Keeps the live steps of a list. What the memory for marks and for new numbers holds means nothing.
pub(crate) fn shorten<C: Choices>(
    steps: &[PackedStep],
    constants: &[Fx],
    choices: C,
    marks: &mut Vec<u8>,
    numbers: &mut Vec<u16>,
    live: &mut Vec<PackedStep>,
) -> Result<(), AllocError>
    requires tape { IsTape (map (unpacked constants.now) steps.now) }
    requires enough { length steps.now ≤ length (C.list choices) }
    requires choices { AreChoices (map (unpacked constants.now) steps.now) (C.list choices) }
    ensures { OnOk result (map (unpacked constants.now) live.new.items
        ≡ live_of (map (unpacked constants.now) steps.now) (C.list choices)) }
{
    marks.resize(steps.len(), 0)?;
    numbers.resize(steps.len().max(constants.len()), 0)?;
    live.resize(steps.len(), PackedStep::blank())?;
    let count = copy_needed(steps, constants, choices, marks, numbers, live);
    live.truncate(count);
    Ok(())
}

// Writes the live steps of a list to the front of a memory, and gives how many there are.
fn copy_needed<C: Choices>(
    steps: &[PackedStep],
    constants: &[Fx],
    choices: C,
    marks: &mut [u8],
    numbers: &mut [u16],
    new: &mut [PackedStep],
) -> usize
    requires tape { IsTape (map (unpacked constants.now) steps.now) }
    requires enough { length steps.now ≤ length (C.list choices) }
    requires choices { AreChoices (map (unpacked constants.now) steps.now) (C.list choices) }
    requires marks { length steps.now ≤ length marks.old }
    requires numbers { length steps.now ≤ length numbers.old }
    requires table { length constants.now ≤ length numbers.old }
    requires room { length steps.now ≤ length new.old }
    ensures { map (unpacked constants.now) (take result new.new)
        ≡ live_of (map (unpacked constants.now) steps.now) (C.list choices) }
{
    let list = Steps::from_packed(steps, constants);
    mark_rows(&list, EachLane { choices }, ONE_LANE, marks);
    copy_live(steps, constants, choices, marks, 0, numbers, new)
}
