// What the known corners of a cell show.

/// What the known corners of a cell show.
#[derive(Clone, Copy, Debug, PartialEq, Eq)]
pub struct Seen {
    /// Whether all corners are known.
    pub all: bool,
    /// Whether some known corner is inside.
    pub inside: bool,
    /// Whether some known corner is outside.
    pub outside: bool,
}
