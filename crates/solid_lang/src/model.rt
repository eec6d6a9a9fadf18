// The model that a solid is compiled to.
ghost use Rattle.std.specs.Prelude.{◌≡◌, ◌≢◌, ◌≤◌, ◌<◌, IfErr, IfOk, OnOk};
ghost use Rattle.solid_lang.specs.Compiled.{compiled};
ghost use Rattle.solid_lang.specs.Counts.{clause_count, depth};
ghost use Rattle.solid_lang.specs.Solids.{tree};

use crate::compiler::put_all;
use crate::count::count_clauses;
use crate::{Solid, SolidFault, SolidReason};
use solid_model::{Model, ModelBuilder};
use std::alloc::{AllocError, Global};

// The most clauses of a model.
const MOST_CLAUSES: u32 = 65_535;

/// The model of a solid: the coordinates, and then a clause for each operation and each constant of
/// its forms. The last one has the value of the solid. Each is named `_` and its place in decimal.
///
/// `TooMany`: there are more than 65,535 clauses. `NoMemory`: memory was refused, and there are not.
/// The line is 0.
pub fn compile(alloc: Global, solid: &Solid) -> Result<Model, SolidFault>
    requires { depth (tree solid.now) ≤ 256 }
    ensures ok { IfOk result (λ model. model ≡ compiled (tree solid.now)) }
    ensures room { OnOk result (clause_count (tree solid.now) ≤ 65535) }
    ensures too_many { IfErr result (λ fault. fault.reason ≢ SolidReason.NoMemory
        → (fault.reason ≡ SolidReason.TooMany) × (65535 < clause_count (tree solid.now))) }
    ensures no_memory { IfErr result (λ fault. fault.reason ≡ SolidReason.NoMemory
        → clause_count (tree solid.now) ≤ 65535) }
    ensures line { IfErr result (λ fault. fault.line ≡ 0) }
{
    let count = count_clauses(solid);
    if count > MOST_CLAUSES {
        return Err(SolidFault {
            line: 0,
            reason: SolidReason::TooMany,
        });
    }
    match model_of(alloc, solid, count) {
        Ok(model) => Ok(model),
        Err(AllocError) => Err(SolidFault {
            line: 0,
            reason: SolidReason::NoMemory,
        }),
    }
}

// The model of a solid for whose clauses there is room. AllocError: memory was refused.
#[tactic(auto, using(crate::proofs::PushLemmas::none_are_named))]
fn model_of(alloc: Global, solid: &Solid, count: u32) -> Result<Model, AllocError>
    requires { clause_count (tree solid.now) ≤ 65535 }
    ensures { IfOk result (λ model. model ≡ compiled (tree solid.now)) }
{
    let mut builder = ModelBuilder::with_room(alloc, count as usize);
    put_all(&mut builder, solid)?;
    match builder.finish() {
        Some(model) => Ok(model),
        None => unreachable!(),
    }
}
