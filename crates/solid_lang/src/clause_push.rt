// Steps, put last in a model in the making as clauses that are named by their places.
ghost use Rattle.std.specs.Prelude.{◌≡◌, ◌+◌, ◌≤◌, ◌<◌, [], ◌∷◌, ◌++◌, length, IfOk, OnOk};
ghost use Rattle.solid_model.specs.Names.{IsName};
ghost use Rattle.solid_lang.specs.Compiled.{clause_at, clauses_at, place_name};
ghost use Rattle.solid_lang.specs.NamedByPlaces.{AreNamedByPlaces};
ghost use Rattle.solid_lang.specs.Placing.{Each, Fits};

use crate::step::Step;
use crate::step_sink::StepSink;
use arrayvec::ArrayVec;
use itoa::Buffer;
use solid_model::{ModelBuilder, PushFault};
use std::alloc::AllocError;

// A model in the making takes steps as clauses.
impl StepSink for ModelBuilder {
    ghost use Rattle.solid_lang.specs.AddUp.{clauses_add_up};

    ghost takes = { λ clauses place. (length clauses ≡ place) × AreNamedByPlaces clauses };

    ghost grows = { λ old new place steps. new ≡ old ++ clauses_at place steps };

    #[inline]
    fn put(&mut self, place: u32, steps: &[Step]) -> Result<u32, AllocError> {
        push_steps(self, place, steps)
    }

    ghost adds_up = { clauses_add_up };
}

// Puts a few steps last, and gives the place behind them.
fn push_steps(builder: &mut ModelBuilder, place: u32, steps: &[Step]) -> Result<u32, AllocError>
    requires next { length builder.old ≡ place }
    requires named { AreNamedByPlaces builder.old }
    requires places { place + length steps.now ≤ 65535 }
    requires fit { Each Fits place steps.now }
    ensures clauses { OnOk result (builder.new ≡ builder.old ++ clauses_at place steps.now) }
    ensures end { IfOk result (λ end. end ≡ place + length steps.now) }
    ensures next { OnOk result (length builder.new ≡ place + length steps.now) }
    ensures named { OnOk result (AreNamedByPlaces builder.new) }
{
    for step in steps {
        push_step(builder, *step)?;
    }
    Ok(place + steps.len() as u32)
}

// Puts a step last, whose name is new. Only memory may be refused.
#[tactic(auto, using(crate::proofs::PushLemmas::no_fault, crate::proofs::PushLemmas::named_after))]
fn push_step(builder: &mut ModelBuilder, step: Step) -> Result<(), AllocError>
    requires room { length builder.old < 65535 }
    requires named { AreNamedByPlaces builder.old }
    requires fits { Fits (length builder.old) step }
    ensures clause { OnOk result (builder.new
        ≡ builder.old ++ clause_at (length builder.old) step ∷ []) }
    ensures named { OnOk result (AreNamedByPlaces builder.new) }
{
    let name = name_of_place(builder.len());
    match builder.push(name.as_slice(), step.op, step.a, step.b, step.value) {
        Ok(()) => Ok(()),
        Err(PushFault::NoMemory) => Err(AllocError),
        Err(PushFault::DoubleName | PushFault::Full) => unreachable!(),
    }
}

// The name of the clause at a place: `_` and the place in decimal.
#[tactic(auto, using(crate::proofs::LineLemmas::place_short, crate::proofs::NameLemmas::place_is_name))]
fn name_of_place(place: u32) -> ArrayVec<u8, 6>
    requires { place < 65535 }
    ensures bytes { result.items ≡ place_name place }
    ensures name { IsName result.items }
{
    let mut digits = Buffer::new();
    let mut name = ArrayVec::new();
    name.push(b'_');
    name.try_extend_from_slice(digits.format(place).as_bytes())
        .unwrap();
    name
}
