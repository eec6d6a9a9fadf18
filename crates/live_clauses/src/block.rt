// A block of steps, of which each list is a part.
ghost use Rattle.std.specs.Prelude.{◌≡◌, ◌<◌, ◌+◌, ◌-◌, ◌*◌, ◌≤◌, ◌∷◌, ◌++◌, [], length, map, take, drop, OnOk, OnErr};
ghost use Rattle.live_clauses.specs.Blocks.{AreParts, IsPart, end_of, part_of, parts_of};
ghost use Rattle.live_clauses.specs.Choices.{AreChoices};
ghost use Rattle.live_clauses.specs.Live.{live_of};
ghost use Rattle.live_clauses.specs.Marks.{AreMarks};
ghost use Rattle.live_clauses.specs.Packed.{unpacked};
ghost use Rattle.live_clauses.specs.Steps.{IsTape};

use crate::choices::EachLane;
use crate::copying::copy_live;
use crate::marking::{ONE_LANE, mark_rows};
use crate::packed_step::PackedStep;
use crate::part::Part;
use crate::{Choices, Steps};
use fixed_ops::Fx;
use std::alloc::AllocError;

// Where the last of some parts ends.
#[inline]
pub(crate) fn last_end(parts: &[Part]) -> usize
    ensures { result ≡ end_of parts.now }
{
    match parts {
        [] => 0,
        [.., last] => last.end,
    }
}

// Puts the live list of a part of a block behind the last one.
pub(crate) fn append_live<C: Choices>(
    block: &mut Vec<PackedStep>,
    parts: &mut Vec<Part>,
    marks: &mut [u8],
    numbers: &mut [u16],
    part: Part,
    constants: &[Fx],
    choices: C,
) -> Result<(), AllocError>
    requires parts { AreParts constants.now block.old.items (length numbers.old) parts.old.items }
    requires room { length numbers.old ≤ length marks.old }
    requires table { length constants.now ≤ length numbers.old }
    requires part { IsPart constants.now block.old.items (length numbers.old) part }
    requires before { part.end ≤ end_of parts.old.items }
    requires enough { length (part_of constants.now block.old.items part)
        ≤ length (C.list choices) }
    requires choices { AreChoices (part_of constants.now block.old.items part) (C.list choices) }
    ensures parts { AreParts constants.now block.new.items (length numbers.old) parts.new.items }
    ensures pushed { OnOk result (parts_of constants.now block.new.items parts.new.items
        ≡ parts_of constants.now block.old.items parts.old.items
        ++ live_of (part_of constants.now block.old.items part) (C.list choices) ∷ []) }
    ensures stays { OnErr result (parts_of constants.now block.new.items parts.new.items
        ≡ parts_of constants.now block.old.items parts.old.items) }
{
    mark_part(block, part, constants, choices, marks);
    append_marked(block, parts, marks, 0, numbers, part, constants, choices)
}

// The same where the steps that are needed are marked, in the bit of a lane.
pub(crate) fn append_marked<C: Choices>(
    block: &mut Vec<PackedStep>,
    parts: &mut Vec<Part>,
    marks: &[u8],
    lane: usize,
    numbers: &mut [u16],
    part: Part,
    constants: &[Fx],
    choices: C,
) -> Result<(), AllocError>
    requires lane { lane < 8 }
    requires parts { AreParts constants.now block.old.items (length numbers.old) parts.old.items }
    requires table { length constants.now ≤ length numbers.old }
    requires part { IsPart constants.now block.old.items (length numbers.old) part }
    requires before { part.end ≤ end_of parts.old.items }
    requires enough { length (part_of constants.now block.old.items part)
        ≤ length (C.list choices) }
    requires choices { AreChoices (part_of constants.now block.old.items part) (C.list choices) }
    requires marked { length (part_of constants.now block.old.items part) ≤ length marks.now }
    requires marks { AreMarks lane (part_of constants.now block.old.items part) (C.list choices)
        marks.now }
    ensures parts { AreParts constants.now block.new.items (length numbers.old) parts.new.items }
    ensures pushed { OnOk result (parts_of constants.now block.new.items parts.new.items
        ≡ parts_of constants.now block.old.items parts.old.items
        ++ live_of (part_of constants.now block.old.items part) (C.list choices) ∷ []) }
    ensures stays { OnErr result (parts_of constants.now block.new.items parts.new.items
        ≡ parts_of constants.now block.old.items parts.old.items) }
{
    let start = last_end(parts);
    make_room(block, start + (part.end - part.start))?;
    parts.reserve(1)?;
    let live = copy_part(block, part, start, constants, choices, marks, lane, numbers);
    parts.push_reserved(live);
    Ok(())
}

// Marks the steps of a part that are needed, in the first lane.
#[inline]
fn mark_part<C: Choices>(
    block: &[PackedStep],
    part: Part,
    constants: &[Fx],
    choices: C,
    marks: &mut [u8],
)
    requires order { part.start ≤ part.end }
    requires within { part.end ≤ length block.now }
    requires tape { IsTape (part_of constants.now block.now part) }
    requires enough { length (part_of constants.now block.now part) ≤ length (C.list choices) }
    requires choices { AreChoices (part_of constants.now block.now part) (C.list choices) }
    requires room { length (part_of constants.now block.now part) ≤ length marks.old }
    ensures { AreMarks 0 (part_of constants.now block.now part) (C.list choices) marks.new }
{
    let list = Steps::from_packed(in_part(block, part), constants);
    mark_rows(&list, EachLane { choices }, ONE_LANE, marks);
}

// Writes the live list of a part into a block from a place behind it on, where there is room for as
// many steps as the part has, and gives the part that it is.
#[inline]
fn copy_part<C: Choices>(
    block: &mut Vec<PackedStep>,
    part: Part,
    start: usize,
    constants: &[Fx],
    choices: C,
    marks: &[u8],
    lane: usize,
    numbers: &mut [u16],
) -> Part
    requires lane { lane < 8 }
    requires before { part.end ≤ start }
    requires room { start + (part.end - part.start) ≤ length block.old.items }
    requires table { length constants.now ≤ length numbers.old }
    requires part { IsPart constants.now block.old.items (length numbers.old) part }
    requires enough { length (part_of constants.now block.old.items part)
        ≤ length (C.list choices) }
    requires choices { AreChoices (part_of constants.now block.old.items part) (C.list choices) }
    requires marked { length (part_of constants.now block.old.items part) ≤ length marks.now }
    requires marks { AreMarks lane (part_of constants.now block.old.items part) (C.list choices)
        marks.now }
    ensures same { take start block.new.items ≡ take start block.old.items }
    ensures long { length block.new.items ≡ length block.old.items }
    ensures start { result.start ≡ start }
    ensures order { start ≤ result.end }
    ensures few { result.end ≤ start + (part.end - part.start) }
    ensures live { part_of constants.now block.new.items result
        ≡ live_of (part_of constants.now block.old.items part) (C.list choices) }
{
    let (earlier, later) = block.split_at_mut(start);
    let steps = in_part(earlier, part);
    let count = copy_live(steps, constants, choices, marks, lane, numbers, later);
    let end = start + count;
    Part { start, end }
}

// The steps of a part.
#[inline]
fn in_part(block: &[PackedStep], part: Part) -> &[PackedStep]
    requires order { part.start ≤ part.end }
    requires within { part.end ≤ length block.now }
    ensures { result.now ≡ take (part.end - part.start) (drop part.start block.now) }
{
    &block[part.start..part.end]
}

// Makes a block as long as this.
#[inline]
fn make_room(block: &mut Vec<PackedStep>, len: usize) -> Result<(), AllocError>
    ensures room { OnOk result (len ≤ length block.new.items) }
    ensures same { take (length block.old.items) block.new.items ≡ block.old.items }
{
    if block.len() < len {
        block.resize(len, PackedStep::blank())?;
    }
    Ok(())
}
