// One token of a line.
ghost use Rattle.std.specs.Prelude.{◌≡◌, ◌≤◌, ◌<◌, not, [], ◌∷◌, ◌++◌, List, ℕ, length, drop, position, slice_range, IfSome, MatchOption};
ghost use Rattle.std.specs.List.{position_or_len};
ghost use Rattle.solid_model.specs.Names.{is_blank, is_token_byte};
ghost use Rattle.clause_reader.specs.LineLaws.{AreBlanks};
ghost use Rattle.clause_reader.specs.Lines.{begins_comment, line_of};
ghost use Rattle.clause_reader.specs.Scan.{after_line, line_tokens, SkipsBlanks, SplitsRun};
ghost use Rattle.clause_reader.specs.Tokens.{AreTokenBytes, IsTokenAt};

/// Where the first token of a line at or after a place begins and ends: it is the longest run of
/// bytes there that are neither a blank (a space, a tab or a carriage return) nor a line feed,
/// which ends the line. `None`: exactly where only blanks follow.
pub fn next_token(line: &[u8], from: usize) -> Option<(usize, usize)>
    requires { from ≤ length line.now }
    ensures token { MatchOption result (AreBlanks (line_of (drop from line.now)))
        (λ place. IsTokenAt line.now from place.0 place.1) }
    ensures tokens { MatchOption result (line_tokens (drop from line.now) ≡ [])
        (λ place. line_tokens (drop from line.now)
        ≡ slice_range line.now place.0 place.1 ∷ line_tokens (drop place.1 line.now)) }
{
    let (token, rest) = split_token(&line[from..])?;
    let end = line.len() - rest.len();
    Some((end - token.len(), end))
}

/// The first token of the line with which a text begins, and what stands after it.
pub(crate) fn split_token(text: &[u8]) -> Option<(&[u8], &[u8])>
    ensures gap { MatchOption result (AreBlanks (line_of text.now)) (λ parts. (gap : List ℕ)
        × (text.now ≡ gap ++ (parts.0.now ++ parts.1.now)) × AreBlanks gap) }
    ensures tokens { MatchOption result (line_tokens text.now ≡ [])
        (λ parts. line_tokens text.now ≡ parts.0.now ∷ line_tokens parts.1.now) }
    ensures line { IfSome result (λ parts. after_line parts.1.now ≡ after_line text.now) }
    ensures run { IfSome result (λ parts. SplitsRun (parts.0.now ++ parts.1.now) parts.0.now
        parts.1.now) }
    ensures token { IfSome result (λ parts. AreTokenBytes parts.0.now) }
    ensures some { IfSome result (λ parts. 0 < length parts.0.now) }
{
    let start = skip_blanks(text);
    let (token, rest) = split_run(start);
    if token.is_empty() {
        None
    } else {
        Some((token, rest))
    }
}

// A text without the blanks with which it begins.
fn skip_blanks(text: &[u8]) -> &[u8]
    ensures { SkipsBlanks text.now result.now }
{
    &text[blank_len(text)..]
}

// How many blanks a text begins with.
#[tactic(auto, using(crate::proofs::Runs::unwrap_position, crate::proofs::Runs::place_within))]
fn blank_len(text: &[u8]) -> usize
    ensures value { result ≡ position_or_len (λ byte. not (is_blank byte)) text.now }
    ensures within { result ≤ length text.now }
{
    first_solid(text).unwrap_or(text.len())
}

// The place of the first byte that is no blank.
fn first_solid(text: &[u8]) -> Option<usize>
    ensures { result ≡ position (λ byte. not (is_blank byte)) text.now }
{
    text.iter().position(|byte| !is_blank(*byte))
}

// The longest run of token bytes with which a text begins, and what stands after it.
fn split_run(text: &[u8]) -> (&[u8], &[u8])
    ensures { SplitsRun text.now result.0.now result.1.now }
{
    text.split_at(run_len(text))
}

// How many token bytes a text begins with.
#[tactic(auto, using(crate::proofs::Runs::unwrap_position, crate::proofs::Runs::place_within))]
fn run_len(text: &[u8]) -> usize
    ensures value { result ≡ position_or_len (λ byte. not (is_token_byte byte)) text.now }
    ensures within { result ≤ length text.now }
{
    first_end(text).unwrap_or(text.len())
}

// The place of the first byte that may not stand in a token.
fn first_end(text: &[u8]) -> Option<usize>
    ensures { result ≡ position (λ byte. not (is_token_byte byte)) text.now }
{
    text.iter().position(|byte| !is_token_byte(*byte))
}

// A byte that may stand in a token: neither a blank nor a line feed.
#[inline]
fn is_token_byte(byte: u8) -> bool
    ensures { result ≡ is_token_byte byte }
{
    !(is_blank(byte) || byte == b'\n')
}

// A space, a tab or a carriage return.
#[inline]
fn is_blank(byte: u8) -> bool
    ensures { result ≡ is_blank byte }
{
    byte == b' ' || byte == b'\t' || byte == b'\r'
}

/// Whether a token begins with `#`, and so makes its line a comment where it is the line's first.
#[inline]
pub fn begins_comment(token: &[u8]) -> bool
    ensures { result ≡ begins_comment token.now }
{
    matches!(token, [b'#', ..])
}
