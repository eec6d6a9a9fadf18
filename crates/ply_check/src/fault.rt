// Refusals.
ghost use Rattle.std.specs.Prelude.{◌≡◌};
ghost use Rattle.ply_check.specs.Answers.{fault_at, too_short};

use crate::{PlyFault, PlyReason};

// A refusal of the line of this number.
#[inline]
pub(crate) fn fault(line: u32, reason: PlyReason) -> PlyFault
    ensures { result ≡ fault_at line reason }
{
    PlyFault { line, reason }
}

// The lines end too early.
pub(crate) fn too_short() -> PlyFault
    ensures { result ≡ too_short }
{
    fault(0, PlyReason::TooShort)
}
