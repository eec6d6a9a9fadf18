// Why words are refused.

use thiserror::Error;

/// Which word is refused, and why.
#[derive(Clone, Copy, Debug, PartialEq, Eq, Error)]
#[error("word {at}: {reason:?}")]
pub struct WordFault {
    /// The number of the word, the first being 1, and 0 where no one word is at fault.
    pub at: u32,
    /// The lowest reason that holds.
    pub reason: WordReason,
}

/// Why words are refused.
#[derive(Clone, Copy, Debug, PartialEq, Eq, Error)]
pub enum WordReason {
    /// There are no words.
    #[error("no verb")]
    NoVerb,
    /// The first word is no verb.
    #[error("an unknown verb")]
    UnknownVerb,
    /// The word has no `=`.
    #[error("not a setting")]
    NotASetting,
    /// The verb has no setting of that name.
    #[error("an unknown setting")]
    UnknownSetting,
    /// The name was given by an earlier word.
    #[error("a setting is given twice")]
    Twice,
    /// The value is no numeral, or no count.
    #[error("not a value")]
    BadValue,
    /// The count is outside its range.
    #[error("out of range")]
    OutOfRange,
    /// The ends of an axis are not in order.
    #[error("an empty span")]
    EmptySpan,
    /// The ends of an axis are nearer than 65536 raw units a cell.
    #[error("cells are too small")]
    CellTooSmall,
    /// A mesh has more than 16777216 cells.
    #[error("too many cells")]
    TooManyCells,
}
