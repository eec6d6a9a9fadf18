// Why a token is refused.

use thiserror::Error;

/// Why a text is refused as a solid, or a solid as a model. The first token that is bad is told, and
/// of the reasons that hold of one token the first in this order.
#[derive(Clone, Copy, Debug, PartialEq, Eq, Error)]
pub enum SolidReason {
    /// A token that should name a form names none.
    #[error("an unknown form")]
    UnknownForm,
    /// A form stands within 256 others.
    #[error("too deep")]
    TooDeep,
    /// A token that should be a numeral is none.
    #[error("not a numeral")]
    BadNumeral,
    /// A number that must be above 0 is not.
    #[error("not above 0")]
    NotPositive,
    /// The tokens end within a form. The line is that of the last token.
    #[error("the text ends within a form")]
    Unended,
    /// A token follows the whole solid.
    #[error("a token follows the solid")]
    Trailing,
    /// The solid has more than 65,535 clauses.
    #[error("too many clauses")]
    TooMany,
    /// There is no token.
    #[error("no solid")]
    Empty,
    /// Memory was refused.
    #[error("out of memory")]
    NoMemory,
}
