// A line of a text.

use crate::Tokens;

/// A line with a token.
#[derive(Debug, Drop)]
pub struct Line<'t> {
    /// Its number among all lines of the text, blank lines and comments too, from 1 on.
    pub number: u32,
    /// Its first token.
    pub first: &'t [u8],
    /// Its other tokens.
    pub others: Tokens<'t>,
}
