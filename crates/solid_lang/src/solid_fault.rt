// Why a text is no solid, or a solid no model.

use crate::SolidReason;
use thiserror::Error;

/// The line of the first token for which a text is refused as a solid, and why. The line is 0 where
/// the reason is `TooMany`, `Empty` or `NoMemory`.
#[derive(Clone, Copy, Debug, PartialEq, Eq, Error)]
#[error("line {line}: {reason}")]
pub struct SolidFault {
    /// The number of the line, from 1 on, or 0.
    pub line: u32,
    /// Why it is refused.
    pub reason: SolidReason,
}
