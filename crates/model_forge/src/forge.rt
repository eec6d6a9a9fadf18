// The model of a seed.
ghost use Rattle.std.specs.Prelude.{◌≡◌, ◌≤◌, ◌∷◌, [], ◌++◌, IfOk, None, OnOk, pos};
ghost use Rattle.fixed_ops.specs.Arity.{arity_of};
ghost use Rattle.solid_model.specs.Names.{IsName};
ghost use Rattle.solid_model.specs.Named.{named_of, placed};
ghost use Rattle.solid_model.specs.Pushing.{push_fault};
ghost use Rattle.model_forge.specs.Forged.{forged};
ghost use Rattle.model_forge.specs.Placed.{axes_at};

use crate::clauses::push_disc;
use crate::disc::Disc;
use crate::stream::Stream;
use fixed_ops::{Fx, Op};
use solid_model::{Model, ModelBuilder, PushFault};
use std::alloc::{AllocError, Global};

/// The model of so many discs, each drawn from the stream of numbers of a seed: its centre lies
/// from -1 up to 1 along x and y, and its radius is at most 1 / 16. The first disc stands alone;
/// each other one joins the solid of those before it, or one time in four is cut out of it. There
/// are at most 12 clauses a disc. AllocError: memory was refused, and nothing else can be.
pub fn forge_model(alloc: Global, seed: u64, solids: u32) -> Result<Model, AllocError>
    requires some { 1 ≤ solids }
    requires few { solids ≤ 5000 }
    ensures by_names { IfOk result (λ model. named_of model ≡ forged seed solids) }
    ensures by_places { IfOk result (λ model. model ≡ placed (forged seed solids)) }
{
    let mut builder = ModelBuilder::new(alloc);
    push_axes(&mut builder)?;
    push_discs(&mut builder, seed, solids)?;
    match builder.finish() {
        Some(model) => Ok(model),
        None => unreachable!(),
    }
}

// Puts the clauses of both axes first.
fn push_axes(builder: &mut ModelBuilder) -> Result<(), AllocError>
    requires { builder.old ≡ [] }
    ensures { OnOk result (builder.new ≡ axes_at) }
{
    push_axis(builder, b"x", Op::X)?;
    push_axis(builder, b"y", Op::Y)
}

// Puts the clause of a coordinate last.
fn push_axis(builder: &mut ModelBuilder, name: &[u8], op: Op) -> Result<(), AllocError>
    requires name { IsName name.now }
    requires new { push_fault builder.old name.now ≡ None }
    requires coordinate { arity_of op ≡ 0 }
    ensures { OnOk result (builder.new ≡ builder.old
        ++ record { name = name.now; op = op; a = 0; b = 0; value = pos 0 } ∷ []) }
{
    match builder.push(name, op, 0, 0, Fx::from_raw(0)) {
        Ok(()) => Ok(()),
        Err(PushFault::NoMemory) => Err(AllocError),
        Err(PushFault::DoubleName | PushFault::Full) => unreachable!(),
    }
}

// Puts the clauses of all discs last, in order.
fn push_discs(builder: &mut ModelBuilder, seed: u64, solids: u32) -> Result<(), AllocError>
    requires axes { builder.old ≡ axes_at }
    requires few { solids ≤ 5000 }
    ensures { OnOk result (named_of builder.new ≡ forged seed solids) }
{
    let mut stream = Stream { state: seed };
    for number in 0..solids {
        let disc = Disc::drawn(&mut stream);
        push_disc(builder, number, &disc)?;
    }
    Ok(())
}
