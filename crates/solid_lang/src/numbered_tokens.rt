// The tokens of a text, one after the other.
ghost use Rattle.std.specs.Prelude.{◌≡◌, ◌^◌, ◌<◌, [], ◌∷◌, length, MatchOption};
ghost use Rattle.solid_lang.specs.NumberedTokens.{numbered_tokens};

use clause_reader::{Comments, Lines, Tokens};
use std::marker::Model;

/// A token of a text.
#[derive(Debug, Drop)]
pub(crate) struct Token<'t> {
    /// The number of its line, from 1 on.
    pub line: u32,
    /// Its bytes.
    pub text: &'t [u8],
}

/// The tokens of a text that are left, each with the number of its line, without those of comments.
#[derive(Debug, Drop)]
pub(crate) struct NumberedTokens<'t> {
    line: u32,
    here: Tokens<'t>,
    lines: Lines<'t>,
}

impl<'t> Model for NumberedTokens<'t> {
    ghost use Rattle.std.specs.Prelude.{ℕ, List, ◌++◌};
    ghost use Rattle.solid_lang.specs.NumberedTokens.{on_line, on_lines};

    ghost Value = { List (ℕ × List ℕ) };

    ghost view = { λ t. on_line t.line t.here ++ on_lines t.lines };
}

impl<'t> NumberedTokens<'t> {
    /// The tokens of a text.
    pub(crate) fn new(text: &'t [u8]) -> NumberedTokens<'t>
        requires { length text.now < 2 ^ 32 }
        ensures { result ≡ numbered_tokens text.now }
    {
        NumberedTokens {
            line: 0,
            here: Tokens::new(&[]),
            lines: Lines::new(text, Comments::Skipped),
        }
    }

    /// The next token. `None`: none is left.
    #[inline]
    pub(crate) fn next(&mut self) -> Option<Token<'t>>
        ensures { MatchOption result ((self.old ≡ []) × (self.new ≡ []))
            (λ token. self.old ≡ (token.line, token.text.now) ∷ self.new) }
    {
        if let Some(text) = self.here.next() {
            return Some(Token {
                line: self.line,
                text,
            });
        }
        let line = self.lines.next()?;
        self.line = line.number;
        self.here = line.others;
        Some(Token {
            line: line.number,
            text: line.first,
        })
    }
}
