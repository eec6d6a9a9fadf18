// The tokens of a line, one after the other.
ghost use Rattle.std.specs.Prelude.{◌≡◌, ◌==◌, ◌<◌, [], ◌∷◌, length, IfSome, MatchOption};
ghost use Rattle.clause_reader.specs.Scan.{line_tokens};
ghost use Rattle.clause_reader.specs.Tokens.{AreTokenBytes};

use crate::token::split_token;
use std::marker::Model;

/// The tokens of a line that are left, in their order.
#[derive(Debug, Drop)]
pub struct Tokens<'t> {
    rest: &'t [u8],
}

impl<'t> Model for Tokens<'t> {
    ghost use Rattle.std.specs.Prelude.{ℕ, List};
    ghost use Rattle.clause_reader.specs.Scan.{line_tokens};

    ghost Value = { List (List ℕ) };

    ghost view = { λ t. line_tokens t.rest.now };
}

impl<'t> Tokens<'t> {
    /// The tokens of the line with which a text begins.
    #[inline]
    pub fn new(text: &'t [u8]) -> Tokens<'t>
        ensures { result ≡ line_tokens text.now }
    {
        Tokens { rest: text }
    }

    /// The next token, which is some bytes that are neither blanks nor line feeds. `None`: none is
    /// left.
    #[inline]
    pub fn next(&mut self) -> Option<&'t [u8]>
        ensures next { MatchOption result ((self.old ≡ []) × (self.new ≡ []))
            (λ token. self.old ≡ token.now ∷ self.new) }
        ensures bytes { IfSome result (λ token. AreTokenBytes token.now) }
        ensures some { IfSome result (λ token. 0 < length token.now) }
    {
        let (token, rest) = split_token(self.rest)?;
        self.rest = rest;
        Some(token)
    }

    /// Whether no token is left.
    #[inline]
    pub fn is_empty(&self) -> bool
        ensures { result ≡ (length self.now == 0) }
    {
        split_token(self.rest).is_none()
    }

    /// Bytes that begin with a line of the tokens that are left.
    #[inline]
    pub fn rest(&self) -> &'t [u8]
        ensures { line_tokens result.now ≡ self.now }
    {
        self.rest
    }
}
