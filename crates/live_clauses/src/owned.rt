// Lists of steps in memory of their own.
ghost use Rattle.std.specs.Prelude.{◌≡◌, ◌<◌, ◌≤◌, ◌++◌, [], ◌∷◌, true, length, map, slice_index_or, IfOk, OnOk, if◌then◌else◌};
ghost use Rattle.live_clauses.specs.Packed.{is_constant, number_in, unpacked};
ghost use Rattle.live_clauses.specs.Steps.{IsTape};

use crate::packed_step::PackedStep;
use crate::{Steps, Tape};
use fixed_ops::{Fx, Op};
use std::alloc::{AllocError, Global};
use std::rc::RcSlice;

// A list in memory of its own, with a table of its own constants alone: so it holds on to no table
// that was made for another list.
pub(crate) fn keep(alloc: Global, list: &Steps<'_>) -> Result<Tape, AllocError>
    ensures { IfOk result (λ tape. tape ≡ list.now) }
{
    let (packed, table) = list.packed();
    let mut steps = Vec::from_slice(alloc, packed)?;
    let mut constants = Vec::with_capacity(alloc, constant_count(packed))?;
    own_constants(&mut steps, table, &mut constants)?;
    Ok(Tape::from_packed(RcSlice::from_vec(steps)?, RcSlice::from_vec(constants)?))
}

// How many constants a list has, for which there is to be memory.
fn constant_count(steps: &[PackedStep]) -> usize {
    let mut count: usize = 0;
    for step in steps {
        if step.op == Op::Const {
            count += 1;
        }
    }
    count
}

// Puts the constants of a list into a table of its own, where none stands yet, in place of another.
// AllocError: there is no memory for it.
fn own_constants(
    steps: &mut [PackedStep],
    table: &[Fx],
    constants: &mut Vec<Fx>,
) -> Result<(), AllocError>
    requires tape { IsTape (map (unpacked table.now) steps.old) }
    requires none { constants.old.items ≡ [] }
    ensures { OnOk result (map (unpacked constants.new.items) steps.new
        ≡ map (unpacked table.now) steps.old) }
{
    for at in 0..steps.len() {
        own_constant(&mut steps[at], table, constants)?;
    }
    Ok(())
}

// Puts the number of a step, where it is a constant, behind those of a table, in place of another.
// AllocError: there is no memory for it.
#[inline(always)]
fn own_constant(
    step: &mut PackedStep,
    table: &[Fx],
    constants: &mut Vec<Fx>,
) -> Result<(), AllocError>
    requires stored { is_constant step.old.op ≡ true → step.old.a < length table.now }
    requires few { length constants.old.items ≤ 65535 }
    ensures op { step.new.op ≡ step.old.op }
    ensures a { OnOk result (step.new.a
        ≡ (if is_constant step.old.op then length constants.old.items else step.old.a)) }
    ensures b { step.new.b ≡ step.old.b }
    ensures table { OnOk result (constants.new.items ≡ constants.old.items
        ++ (if is_constant step.old.op then number_in table.now step.old.a ∷ [] else [])) }
{
    if step.op == Op::Const {
        let place = constants.len() as u16;
        constants.push(table[step.a as usize])?;
        step.a = place;
    }
    Ok(())
}
