// Why a text is no model.

use crate::TextReason;
use thiserror::Error;

/// The first line of a text that is refused, and why. The line is 0 where the reason is `Empty`.
#[derive(Clone, Copy, Debug, PartialEq, Eq, Error)]
#[error("line {line}: {reason}")]
pub struct TextFault {
    /// The number of the line, from 1 on.
    pub line: u32,
    /// Why it is refused.
    pub reason: TextReason,
}
