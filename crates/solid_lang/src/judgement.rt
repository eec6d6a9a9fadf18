// Whether a text says a solid.
ghost use Rattle.std.specs.Prelude.{◌≡◌, ◌^◌, ◌<◌, None, length};
ghost use Rattle.solid_lang.specs.Gives.{Judges};
ghost use Rattle.solid_lang.specs.Judged.{judged};
ghost use Rattle.solid_lang.specs.NumberedTokens.{numbered_tokens};
ghost use Rattle.solid_lang.specs.Wants.{whole_solid};

use crate::numbered_tokens::NumberedTokens;
use crate::wants::Wants;
use crate::{SolidFault, SolidReason};

// The clauses of the three coordinates.
const COORDINATES: u32 = 3;

// A model has at most so many clauses.
const MOST_CLAUSES: u32 = 65_535;

/// How many clauses the solid has that a text says. It takes no memory and builds no solid.
///
/// An `Err` tells the first bad token by its line and the lowest of the reasons that hold of it, or
/// that the tokens end too early, or, where none of this holds, that the clauses are too many.
pub fn judge(text: &[u8]) -> Result<u32, SolidFault>
    requires { length text.now < 2 ^ 32 }
    ensures { Judges text.now result }
{
    match count_clauses(text) {
        Ok(clauses) if clauses > MOST_CLAUSES => Err(SolidFault {
            line: 0,
            reason: SolidReason::TooMany,
        }),
        Ok(clauses) => Ok(clauses),
        Err(fault) => Err(fault),
    }
}

// How many clauses the solid has that a text says, and one more than a model may have for all that
// are more.
pub(crate) fn count_clauses(text: &[u8]) -> Result<u32, SolidFault>
    requires { length text.now < 2 ^ 32 }
    ensures { result ≡ judged 3 None whole_solid (numbered_tokens text.now) }
{
    let mut tokens = NumberedTokens::new(text);
    let mut wants = Wants::new();
    let mut clauses = COORDINATES;
    let mut last = None;
    while let Some(token) = tokens.next() {
        match wants.take(token.text) {
            Ok(more) => clauses = (clauses + more).min(MOST_CLAUSES + 1),
            Err(reason) => {
                return Err(SolidFault {
                    line: token.line,
                    reason,
                });
            }
        }
        last = Some(token.line);
    }
    if wants.is_empty() {
        return Ok(clauses);
    }
    Err(match last {
        None => SolidFault {
            line: 0,
            reason: SolidReason::Empty,
        },
        Some(line) => SolidFault {
            line,
            reason: SolidReason::Unended,
        },
    })
}
