// What ends a run before its work is written whole.

use crate::Status;
use crate::bad_text::BadText;
use crate::refusal::Refusal;
use clause_reader::{TextFault, TextReason};
use edit_script::{ScriptFault, ScriptReason};
use modeller_io::{Failed, ReadEnd};
use ply_check::{PlyFault, PlyReason};
use solid_lang::{SolidFault, SolidReason};
use std::alloc::AllocError;

/// What ends a run before its work is written whole.
#[derive(Clone, Copy, Debug, PartialEq, Eq)]
pub enum Stop {
    /// What the run was given is refused.
    Refused(Refusal),
    /// The source failed.
    ReadFault,
    /// The sink failed.
    WriteFault,
    /// Memory was refused.
    NoMemory,
}

impl Stop {
    ghost use Rattle.std.specs.Prelude.{◌≡◌};
    ghost use Rattle.modeller_cmd.specs.Stops.{status_at};

    /// The status that the run ends with.
    pub fn status(self) -> Status
        ensures { result ≡ status_at self }
    {
        match self {
            Stop::Refused(refusal) => refusal.status(),
            Stop::ReadFault => Status::ReadFault,
            Stop::WriteFault => Status::WriteFault,
            Stop::NoMemory => Status::NoMemory,
        }
    }
}

// A fault of this reason stops a run: for want of memory, or as this refusal.
macro_rules! stop_for {
    ($reason:expr, $kind:ident, $refusal:expr) => {
        match $reason {
            $kind::NoMemory => Stop::NoMemory,
            _ => Stop::Refused($refusal),
        }
    };
}

impl From<Refusal> for Stop {
    ghost use Rattle.std.specs.Prelude.{◌≡◌};
    ghost use Rattle.modeller_cmd.specs.declared.stop.Stop.TheVariants.{Refused};

    ghost from_gives = { λ refusal stop. stop ≡ Refused refusal };

    fn from(refusal: Refusal) -> Stop {
        Stop::Refused(refusal)
    }
}

impl From<ReadEnd> for Stop {
    ghost use Rattle.std.specs.Prelude.{◌≡◌};
    ghost use Rattle.modeller_cmd.specs.Stops.{stop_of_end};

    ghost from_gives = { λ end stop. stop ≡ stop_of_end end };

    fn from(end: ReadEnd) -> Stop {
        match end {
            ReadEnd::Failed => Stop::ReadFault,
            ReadEnd::TooLong => Stop::Refused(Refusal::TooLong),
            ReadEnd::NoMemory => Stop::NoMemory,
        }
    }
}

impl From<TextFault> for Stop {
    ghost use Rattle.std.specs.Prelude.{◌≡◌};
    ghost use Rattle.modeller_cmd.specs.Stops.{stop_of_text};

    ghost from_gives = { λ fault stop. stop ≡ stop_of_text fault };

    fn from(fault: TextFault) -> Stop {
        stop_for!(
            fault.reason,
            TextReason,
            Refusal::Text(BadText::Model(fault))
        )
    }
}

impl From<SolidFault> for Stop {
    ghost use Rattle.std.specs.Prelude.{◌≡◌};
    ghost use Rattle.modeller_cmd.specs.Stops.{stop_of_forms};

    ghost from_gives = { λ fault stop. stop ≡ stop_of_forms fault };

    fn from(fault: SolidFault) -> Stop {
        stop_for!(
            fault.reason,
            SolidReason,
            Refusal::Text(BadText::Solid(fault))
        )
    }
}

impl From<PlyFault> for Stop {
    ghost use Rattle.std.specs.Prelude.{◌≡◌};
    ghost use Rattle.modeller_cmd.specs.Stops.{stop_of_mesh};

    ghost from_gives = { λ fault stop. stop ≡ stop_of_mesh fault };

    fn from(fault: PlyFault) -> Stop {
        stop_for!(fault.reason, PlyReason, Refusal::Text(BadText::Mesh(fault)))
    }
}

impl From<ScriptFault> for Stop {
    ghost use Rattle.std.specs.Prelude.{◌≡◌};
    ghost use Rattle.modeller_cmd.specs.Stops.{stop_of_script};

    ghost from_gives = { λ fault stop. stop ≡ stop_of_script fault };

    fn from(fault: ScriptFault) -> Stop {
        stop_for!(fault.reason, ScriptReason, Refusal::Script(fault))
    }
}

impl From<AllocError> for Stop {
    ghost use Rattle.std.specs.Prelude.{◌≡◌};
    ghost use Rattle.modeller_cmd.specs.declared.stop.Stop.TheVariants.{NoMemory};

    ghost from_gives = { λ _ stop. stop ≡ NoMemory };

    fn from(_: AllocError) -> Stop {
        Stop::NoMemory
    }
}

impl From<Failed> for Stop {
    ghost use Rattle.std.specs.Prelude.{◌≡◌};
    ghost use Rattle.modeller_cmd.specs.declared.stop.Stop.TheVariants.{WriteFault};

    ghost from_gives = { λ _ stop. stop ≡ WriteFault };

    fn from(_: Failed) -> Stop {
        Stop::WriteFault
    }
}
