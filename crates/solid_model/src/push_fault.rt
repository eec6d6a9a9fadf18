// Why a clause did not go last.

use crate::EditFault;
use thiserror::Error;

/// Why a clause was not put last.
#[derive(Clone, Copy, Debug, PartialEq, Eq, Error)]
pub enum PushFault {
    /// The name stands already.
    #[error("the name stands already")]
    DoubleName,
    /// There are 65,535 clauses.
    #[error("there is no room for a clause")]
    Full,
    /// Memory was refused.
    #[error("out of memory")]
    NoMemory,
}

impl From<PushFault> for EditFault {
    ghost use Rattle.std.specs.Prelude.{◌≡◌};
    ghost use Rattle.solid_model.specs.Adding.{edit_fault};

    ghost from_gives = { λ fault edit. edit ≡ edit_fault fault };

    fn from(fault: PushFault) -> EditFault {
        match fault {
            PushFault::DoubleName => EditFault::DoubleName,
            PushFault::Full => EditFault::Full,
            PushFault::NoMemory => EditFault::NoMemory,
        }
    }
}
