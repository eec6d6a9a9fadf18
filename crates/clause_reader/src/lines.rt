// The lines of a text, one after the other.
ghost use Rattle.std.specs.Prelude.{◌≡◌, ◌^◌, ◌<◌, ◌+◌, [], ◌∷◌, length, IfSome, MatchOption};
ghost use Rattle.clause_reader.specs.Lines.{lines_of};
ghost use Rattle.clause_reader.specs.NumberedLines.{given_from, given_lines, line_seen};
ghost use Rattle.clause_reader.specs.Tokens.{AreTokenBytes};

use crate::line_end::after_line;
use crate::token::split_token;
use crate::{Comments, Line, Tokens};
use std::marker::Model;

/// The lines of a text that are left, each by its number and its tokens: those with a token, and
/// without the comments where these are skipped.
#[derive(Debug, Drop)]
pub struct Lines<'t> {
    rest: &'t [u8],
    passed: u32,
    comments: Comments,
}

impl<'t> Model for Lines<'t> {
    ghost use Rattle.std.specs.Prelude.{◌^◌, ◌<◌, ◌+◌, ℕ, List, length};
    ghost use Rattle.clause_reader.specs.Lines.{lines_of};
    ghost use Rattle.clause_reader.specs.NumberedLines.{given_from};

    ghost Value = { List (ℕ × List (List ℕ)) };

    ghost view = { λ l. given_from l.comments (l.passed + 1) (lines_of l.rest.now) };

    ghost invariant = { λ l. l.passed + length l.rest.now < 2 ^ 32 };
}

impl<'t> Lines<'t> {
    /// The lines of a text, numbered from 1 on.
    #[inline]
    pub fn new(text: &'t [u8], comments: Comments) -> Lines<'t>
        requires { length text.now < 2 ^ 32 }
        ensures { result ≡ given_lines comments text.now }
    {
        Lines::after(0, text, comments)
    }

    /// The lines of a text before which this many lines stand, which are counted too.
    #[inline]
    pub fn after(passed: u32, text: &'t [u8], comments: Comments) -> Lines<'t>
        requires { passed + length text.now < 2 ^ 32 }
        ensures { result ≡ given_from comments (passed + 1) (lines_of text.now) }
    {
        Lines {
            rest: text,
            passed,
            comments,
        }
    }

    /// The next line, whose first token is some bytes that are neither blanks nor line feeds.
    /// `None`: none is left.
    #[inline]
    pub fn next(&mut self) -> Option<Line<'t>>
        ensures next { MatchOption result ((self.old ≡ []) × (self.new ≡ []))
            (λ line. self.old ≡ line_seen line ∷ self.new) }
        ensures bytes { IfSome result (λ line. AreTokenBytes line.first.now) }
        ensures some { IfSome result (λ line. 0 < length line.first.now) }
    {
        let (line, rest) = split_line(self.passed, self.rest, self.comments)?;
        self.passed = line.number;
        self.rest = rest;
        Some(line)
    }
}

// The first of the lines of a text that are given, where this many stand before them, and what
// stands after it.
fn split_line(passed: u32, text: &[u8], comments: Comments) -> Option<(Line<'_>, &[u8])>
    requires { passed + length text.now < 2 ^ 32 }
    ensures next { MatchOption result (given_from comments (passed + 1) (lines_of text.now) ≡ [])
        (λ parts. given_from comments (passed + 1) (lines_of text.now) ≡ line_seen parts.0
        ∷ given_from comments (parts.0.number + 1) (lines_of parts.1.now)) }
    ensures few { IfSome result (λ parts. parts.0.number + length parts.1.now < 2 ^ 32) }
    ensures bytes { IfSome result (λ parts. AreTokenBytes parts.0.first.now) }
    ensures some { IfSome result (λ parts. 0 < length parts.0.first.now) }
{
    let mut number = passed;
    let mut rest = text;
    while !rest.is_empty() {
        number += 1;
        match split_token(rest) {
            None => rest = after_line(rest),
            Some((first, others)) if comments.skip(first) => rest = after_line(others),
            Some((first, others)) => {
                let line = Line {
                    number,
                    first,
                    others: Tokens::new(others),
                };
                return Some((line, after_line(others)));
            }
        }
    }
    None
}
