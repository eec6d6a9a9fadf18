// Whether comments are lines like others.
ghost use Rattle.std.specs.Prelude.{◌≡◌, not, List, ◌∷◌, ℕ};
ghost use Rattle.clause_reader.specs.NumberedLines.{is_given};

use crate::token::begins_comment;

/// What is done with a line whose first token begins with `#`.
#[derive(Clone, Copy, Debug, PartialEq, Eq)]
pub enum Comments {
    /// It is a comment, and is skipped as a blank line is.
    Skipped,
    /// It is a line like any other.
    Kept,
}

impl Comments {
    /// Whether a line with this first token is skipped.
    #[inline]
    pub(crate) fn skip(self, first: &[u8]) -> bool
        ensures { (others : List (List ℕ)) → is_given self (first.now ∷ others) ≡ not result }
    {
        self == Comments::Skipped && begins_comment(first)
    }
}
