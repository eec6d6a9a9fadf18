// Why an input is no script.

use crate::ScriptReason;
use thiserror::Error;

/// The first line of a script that is refused, and why. The line is 0 where the reason is `NoMark`.
#[derive(Clone, Copy, Debug, PartialEq, Eq, Error)]
#[error("line {line}: {reason}")]
pub struct ScriptFault {
    /// The number of the line, from 1 on, among all lines of the input.
    pub line: u32,
    /// Why it is refused.
    pub reason: ScriptReason,
}
