// Why tokens are no form.

use thiserror::Error;

/// Why an operation and its arguments are no form. The first that holds is answered.
#[derive(Clone, Copy, Debug, PartialEq, Eq, Error)]
pub enum FormFault {
    /// No token stands there.
    #[error("no operation")]
    NoOperation,
    /// The first token names no operation.
    #[error("an unknown operation")]
    UnknownOperation,
    /// The arguments are not as many as the operation takes.
    #[error("a wrong number of arguments")]
    WrongArity,
    /// The argument of a constant is no numeral.
    #[error("not a numeral")]
    BadNumeral,
    /// An operand begins with `#`.
    #[error("not a name")]
    BadName,
    /// Memory was refused.
    #[error("out of memory")]
    NoMemory,
}
