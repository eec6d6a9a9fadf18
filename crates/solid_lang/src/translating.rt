// The model of a solid's text, as a text.
ghost use Rattle.std.specs.Prelude.{◌≡◌, ◌≢◌, ◌^◌, ◌<◌, Ok, Err, IfErr, IfOk, IsOk, length};
ghost use Rattle.solid_lang.specs.Translated.{translated};

use crate::reader::read_short_solid;
use crate::text::solid_text;
use crate::{SolidFault, SolidReason};
use std::alloc::Global;

/// The text of the model that the text of a solid is compiled to: `_0 var-x`, `_1 var-y`, `_2 var-z`,
/// and then the clauses of the solid, each named by its place. The solid is built only where it has
/// at most 65,535 clauses.
///
/// An `Err` tells the first bad token by its line and the lowest of the reasons that hold of it, or
/// that the tokens end too early, or, where none of this holds, that the clauses are too many.
/// `NoMemory`, on line 0, comes only where the text is not refused.
#[tactic(auto, using(crate::proofs::Translations::solids_are_translated))]
pub fn translate(alloc: Global, text: &[u8]) -> Result<Vec<u8>, SolidFault>
    requires { length text.now < 2 ^ 32 }
    ensures ok { IfOk result (λ written. translated text.now ≡ Ok written.items) }
    ensures err { IfErr result (λ fault. fault.reason ≢ SolidReason.NoMemory
        → translated text.now ≡ Err fault) }
    ensures memory { IfErr result (λ fault. fault.reason ≡ SolidReason.NoMemory
        → (fault.line ≡ 0) × IsOk (translated text.now)) }
{
    let solid = read_short_solid(alloc, text)?;
    match solid_text(alloc, &solid) {
        Ok(written) => Ok(written),
        Err(_) => Err(SolidFault {
            line: 0,
            reason: SolidReason::NoMemory,
        }),
    }
}
