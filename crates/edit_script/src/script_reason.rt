// Why a line of a script is refused.
ghost use Rattle.std.specs.Prelude.{◌≡◌};
ghost use Rattle.edit_script.specs.Commands.{form_reason};

use clause_reader::{FormDefect, ReadError};
use thiserror::Error;

/// Why a line of a script is refused. The first that holds in it is answered.
#[derive(Clone, Copy, Debug, PartialEq, Eq, Error)]
pub enum ScriptReason {
    /// No line has `%%` as its only token.
    #[error("no mark")]
    NoMark,
    /// The first token is no command.
    #[error("an unknown command")]
    UnknownCommand,
    /// Too few tokens follow the command.
    #[error("too few tokens")]
    TooShort,
    /// The name of a new clause begins with `#`.
    #[error("not a name")]
    BadName,
    /// The operation of an edit is none.
    #[error("an unknown operation")]
    UnknownOperation,
    /// The arguments are not as many as the operation takes, or a token follows the last one of a
    /// command.
    #[error("a wrong number of arguments")]
    WrongArity,
    /// The argument of a constant is no numeral.
    #[error("not a numeral")]
    BadNumeral,
    /// The settings of a draw have a fault.
    #[error("bad settings")]
    BadSetting,
    /// Memory was refused.
    #[error("out of memory")]
    NoMemory,
}

impl From<FormDefect> for ScriptReason {
    ghost from_gives = { λ defect reason. reason ≡ form_reason defect };

    fn from(defect: FormDefect) -> ScriptReason {
        match defect {
            FormDefect::NoOperation => ScriptReason::TooShort,
            FormDefect::UnknownOperation => ScriptReason::UnknownOperation,
            FormDefect::WrongArity => ScriptReason::WrongArity,
            FormDefect::BadNumeral => ScriptReason::BadNumeral,
        }
    }
}

impl From<ScriptReason> for ReadError<ScriptReason> {
    ghost use Rattle.clause_reader.specs.declared.read_error.ReadError.TheVariants.{Defect};

    ghost from_gives = { λ reason error. error ≡ Defect reason };

    fn from(reason: ScriptReason) -> ReadError<ScriptReason> {
        ReadError::Defect(reason)
    }
}
