// Why a line of a text is refused.
ghost use Rattle.std.specs.Prelude.{◌≡◌};
ghost use Rattle.clause_reader.specs.Written.{as_error};

use crate::ReadError;
use solid_model::PushFault;
use thiserror::Error;

/// Why a line of a text is refused. The first that holds in it is answered.
#[derive(Clone, Copy, Debug, PartialEq, Eq, Error)]
pub enum TextReason {
    /// The line has one token.
    #[error("no operation")]
    NoOperation,
    /// The second token names no operation.
    #[error("an unknown operation")]
    UnknownOperation,
    /// The arguments are not as many as the operation takes.
    #[error("a wrong number of arguments")]
    WrongArity,
    /// The argument of a constant is no numeral.
    #[error("not a numeral")]
    BadNumeral,
    /// An argument names no earlier clause.
    #[error("an argument names no earlier clause")]
    UnknownName,
    /// The name stands already.
    #[error("the name stands already")]
    DoubleName,
    /// There are 65,535 clauses already.
    #[error("too many clauses")]
    TooMany,
    /// No line is bad, and none says a clause.
    #[error("no clause")]
    Empty,
    /// Memory was refused.
    #[error("out of memory")]
    NoMemory,
}

impl From<PushFault> for ReadError<TextReason> {
    ghost from_gives = { λ fault error. error ≡ as_error fault };

    fn from(fault: PushFault) -> ReadError<TextReason> {
        match fault {
            PushFault::DoubleName => ReadError::Defect(TextReason::DoubleName),
            PushFault::Full => ReadError::Defect(TextReason::TooMany),
            PushFault::NoMemory => ReadError::Memory,
        }
    }
}
