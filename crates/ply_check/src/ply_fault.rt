// Why a file is refused, and where.

use crate::PlyReason;
use thiserror::Error;

/// The first line of a file that is refused, and why. The line is 0 where the reason is `TooShort`,
/// and where it is `NotPly` and no line has a token.
#[derive(Clone, Copy, Debug, PartialEq, Eq, Error)]
#[error("line {line}: {reason}")]
pub struct PlyFault {
    /// The number of the line, from 1 on, among all lines of the file.
    pub line: u32,
    /// Why it is refused.
    pub reason: PlyReason,
}
