// The root lists of solids.
ghost use Rattle.std.specs.Prelude.{◌≡◌, ◌*◌, ◌≤◌, ◌++◌, [], ◌∷◌, length, map, replicate, Some, IfOk, IsTrue, OnOk, if◌then◌else◌};
ghost use Rattle.fixed_ops.specs.Points.{Point};
ghost use Rattle.interval_ops.specs.declared.choice.Choice.TheVariants.{Both};
ghost use Rattle.solid_model.specs.Clauses.{IsModel};
ghost use Rattle.solid_model.specs.Seen.{clause_seen};
ghost use Rattle.solid_model.specs.Values.{solid_value};
ghost use Rattle.live_clauses.specs.Live.{live_of, root_of};
ghost use Rattle.live_clauses.specs.Packed.{is_constant, unpacked};
ghost use Rattle.live_clauses.specs.Steps.{AreSteps, IsStepAt, IsTape, step_of, steps_of, tape_value};

use crate::choices::NoChoice;
use crate::owned::keep;
use crate::packed_step::PackedStep;
use crate::shortening::shorten;
use crate::{Step, Steps, Tape};
use fixed_ops::{Fx, Op};
use solid_model::{ClauseRef, Model};
use std::alloc::{AllocError, Global};
use std::rc::RcSlice;

/// The root list of a solid: its live list where no choice is made. It leaves out the clauses that
/// the last one does not need, and has the solid's value at each point.
pub fn root_tape(alloc: Global, model: &Model) -> Result<Tape, AllocError>
    ensures live { IfOk result (λ tape. tape ≡ root_of model.now) }
    ensures value { IfOk result (λ tape. (p : Point)
        → tape_value p tape ≡ solid_value p model.now) }
{
    RootRoom::new(alloc).root(model, None)
}

/// Memory for making root lists, which one caller keeps over many models. Contracts see the root list
/// that was made last, where one was.
#[derive(Debug, Drop)]
pub struct RootRoom {
    // The steps that the clauses of a model are, and the numbers of the constants among them.
    steps: Vec<PackedStep>,
    constants: Vec<Fx>,
    // Which of them are needed, the new numbers of these, and those that are live.
    marks: Vec<u8>,
    numbers: Vec<u16>,
    live: Vec<PackedStep>,
    // The root list of these steps, once it was made.
    last: Option<Tape>,
}

impl std::marker::Model for RootRoom {
    ghost use Rattle.std.specs.Prelude.{◌≡◌, List, Option, Some, map};
    ghost use Rattle.live_clauses.specs.Packed.{unpacked};
    ghost use Rattle.live_clauses.specs.Live.{IsLiveOf};
    ghost use Rattle.live_clauses.specs.declared.step.Step.{Step};

    ghost Value = { Option (List Step) };

    ghost view = { λ r. r.last };

    ghost invariant = { λ r. (root : List Step) → r.last ≡ Some root
        → IsLiveOf root (map (unpacked r.constants.items) r.steps.items) };
}

impl RootRoom {
    /// No memory.
    pub fn new(alloc: Global) -> RootRoom {
        RootRoom {
            steps: Vec::new(alloc),
            constants: Vec::new(alloc),
            marks: Vec::new(alloc),
            numbers: Vec::new(alloc),
            live: Vec::new(alloc),
            last: None,
        }
    }

    /// The root list of a solid, as `root_tape` gives it. Where the model has the clauses of the last one,
    /// or the list equals the one that was there before, that very list is shared on. AllocError: there
    /// is no memory for it.
    pub fn root(&mut self, model: &Model, before: Option<&Tape>) -> Result<Tape, AllocError>
        ensures live { IfOk result (λ tape. tape ≡ root_of model.now) }
        ensures value { IfOk result (λ tape. (p : Point)
            → tape_value p tape ≡ solid_value p model.now) }
    {
        let (steps, constants) = (self.steps.as_slice(), self.constants.as_slice());
        match &self.last {
            Some(last) if are_steps(steps, constants, model) => last.share(),
            _ => self.make(model, before),
        }
    }

    // Makes the root list of a model, and keeps it as the last one.
    fn make(&mut self, model: &Model, before: Option<&Tape>) -> Result<Tape, AllocError>
        ensures live { IfOk result (λ tape. tape ≡ root_of model.now) }
        ensures value { IfOk result (λ tape. (p : Point)
            → tape_value p tape ≡ solid_value p model.now) }
    {
        self.last = None;
        pack_clauses(model, &mut self.steps, &mut self.constants)?;
        shorten(
            &self.steps,
            &self.constants,
            NoChoice {
                steps: self.steps.len(),
            },
            &mut self.marks,
            &mut self.numbers,
            &mut self.live,
        )?;
        let root = Steps::from_packed(&self.live, &self.constants);
        let tape = share_or_keep(*self.live.allocator(), &root, before)?;
        self.last = Some(tape.share()?);
        Ok(tape)
    }
}

// These steps as a list: the one that was there before, where that has them, or else one in memory of
// its own.
fn share_or_keep(
    alloc: Global,
    steps: &Steps<'_>,
    before: Option<&Tape>,
) -> Result<Tape, AllocError>
    ensures { IfOk result (λ tape. tape ≡ steps.now) }
{
    match before {
        Some(tape) if tape.steps().same(steps) => tape.share(),
        _ => keep(alloc, steps),
    }
}

// Whether the clauses of a model are these steps, with the table of their constants.
fn are_steps(steps: &[PackedStep], constants: &[Fx], model: &Model) -> bool
    requires { IsTape (map (unpacked constants.now) steps.now) }
    ensures same { IsTrue result
        → map (unpacked constants.now) steps.now ≡ steps_of model.now }
    ensures model { IsModel model.now }
{
    let steps = Steps::from_packed(steps, constants);
    if steps.len() != model.len() {
        return false;
    }
    for at in 0..model.len() {
        if !is_step(&model.clause(at), steps.step(at)) {
            return false;
        }
    }
    true
}

// Whether a clause is this step.
#[inline(always)]
fn is_step(clause: &ClauseRef<'_>, step: Step) -> bool
    ensures { IsTrue result → step_of (clause_seen clause.now) ≡ step }
{
    (clause.op == step.op)
        & (clause.a == step.a)
        & (clause.b == step.b)
        & (clause.value == step.value)
}

// Keeps the steps that the clauses are, with the numbers of the constants among them.
fn pack_clauses(
    model: &Model,
    steps: &mut Vec<PackedStep>,
    constants: &mut Vec<Fx>,
) -> Result<(), AllocError>
    ensures steps { OnOk result (map (unpacked constants.new.items) steps.new.items
        ≡ steps_of model.now) }
    ensures table { OnOk result (length constants.new.items ≤ length steps.new.items) }
    ensures model { IsModel model.now }
{
    steps.clear();
    constants.clear();
    steps.reserve(model.len() as usize)?;
    for at in 0..model.len() {
        let clause = model.clause(at);
        let step = Step {
            op: clause.op,
            a: clause.a,
            b: clause.b,
            value: clause.value,
        };
        push_step(steps, constants, step)?;
    }
    Ok(())
}

// Keeps one more step, with its number where it is a constant.
fn push_step(
    steps: &mut Vec<PackedStep>,
    constants: &mut Vec<Fx>,
    step: Step,
) -> Result<(), AllocError>
    requires steps { AreSteps (map (unpacked constants.old.items) steps.old.items) }
    requires table { length constants.old.items ≤ length steps.old.items }
    requires few { length steps.old.items ≤ 65534 }
    requires step { IsStepAt (length steps.old.items) step }
    ensures steps { OnOk result (map (unpacked constants.new.items) steps.new.items
        ≡ map (unpacked constants.old.items) steps.old.items ++ step ∷ []) }
    ensures table { OnOk result (length constants.new.items ≤ length steps.new.items) }
{
    let place = constants.len() as u16;
    push_number(constants, step.op, step.value)?;
    steps.push(PackedStep::pack(step, place))?;
    Ok(())
}

// Puts a number behind others where it is that of a constant.
fn push_number(constants: &mut Vec<Fx>, op: Op, value: Fx) -> Result<(), AllocError>
    ensures { OnOk result (constants.new.items
        ≡ constants.old.items ++ (if is_constant op then value ∷ [] else [])) }
{
    match op {
        Op::Const => {
            constants.push(value)?;
            Ok(())
        }
        _ => Ok(()),
    }
}
