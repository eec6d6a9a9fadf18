// What is wrong with an operation and its arguments before any name is looked up.
ghost use Rattle.std.specs.Prelude.{◌≡◌};
ghost use Rattle.clause_reader.specs.Written.{as_fault, as_reason};

use crate::{FormFault, ReadError, TextReason};

/// The first defect of an operation and its arguments.
#[derive(Clone, Copy, Debug, PartialEq, Eq)]
pub enum FormDefect {
    /// No token stands there.
    NoOperation,
    /// The first token names no operation.
    UnknownOperation,
    /// The arguments are not as many as the operation takes.
    WrongArity,
    /// The argument of a constant is no numeral.
    BadNumeral,
}

impl From<ReadError<FormDefect>> for FormFault {
    ghost from_gives = { λ error fault. fault ≡ as_fault error };

    fn from(error: ReadError<FormDefect>) -> FormFault {
        match error {
            ReadError::Memory => FormFault::NoMemory,
            ReadError::Defect(FormDefect::NoOperation) => FormFault::NoOperation,
            ReadError::Defect(FormDefect::UnknownOperation) => FormFault::UnknownOperation,
            ReadError::Defect(FormDefect::WrongArity) => FormFault::WrongArity,
            ReadError::Defect(FormDefect::BadNumeral) => FormFault::BadNumeral,
        }
    }
}

impl From<FormDefect> for TextReason {
    ghost from_gives = { λ defect reason. reason ≡ as_reason defect };

    fn from(defect: FormDefect) -> TextReason {
        match defect {
            FormDefect::NoOperation => TextReason::NoOperation,
            FormDefect::UnknownOperation => TextReason::UnknownOperation,
            FormDefect::WrongArity => TextReason::WrongArity,
            FormDefect::BadNumeral => TextReason::BadNumeral,
        }
    }
}
