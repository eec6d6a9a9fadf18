// The mark between the text of a model and the commands.
ghost use Rattle.std.specs.Prelude.{◌≡◌, ◌≤◌, ◌+◌, length, IfSome};
ghost use Rattle.std.specs.Option.{option_map};
ghost use Rattle.clause_reader.specs.Scan.{after_line, line_tokens};
ghost use Rattle.solid_model.specs.Names.{is_token_byte};
ghost use Rattle.edit_script.specs.Marks.{begins_other, is_mark, is_sign, line_start, mark_ends, mark_place};

use clause_reader::Tokens;
use memchr::memchr;

/// A mark line.
#[derive(Clone, Copy, Debug)]
pub(crate) struct Mark {
    /// How many lines stand before it.
    pub place: usize,
    /// Where it begins.
    pub start: usize,
    /// Where the line after it begins.
    pub end: usize,
}

/// Where the first mark line begins, the first line whose only token is `%%`, and where the line
/// after it begins, which is the end of the input where no line follows. `None`: there is no mark
/// line.
pub fn split_input(input: &[u8]) -> Option<(usize, usize)>
    ensures { result ≡ mark_ends input.now }
{
    let mark = find_mark(input)?;
    Some((mark.start, mark.end))
}

/// The first mark line of an input.
pub(crate) fn find_mark(input: &[u8]) -> Option<Mark>
    ensures place { option_map (λ mark. mark.place) result ≡ mark_place input.now }
    ensures start { IfSome result (λ mark. mark.start ≡ line_start input.now mark.place) }
    ensures end { IfSome result (λ mark. mark.end ≡ line_start input.now (mark.place + 1)) }
    ensures after { IfSome result (λ mark. mark.place + 1 ≤ mark.end) }
    ensures within { IfSome result (λ mark. mark.end ≤ length input.now) }
{
    let mut place = 0;
    let mut rest = input;
    while !rest.is_empty() {
        let after = after_line(rest);
        if is_mark(rest) {
            return Some(Mark {
                place,
                start: input.len() - rest.len(),
                end: input.len() - after.len(),
            });
        }
        place += 1;
        rest = after;
    }
    None
}

// What stands after the line with which a text begins, and its line feed. A long line is passed many
// bytes at a time.
fn after_line(text: &[u8]) -> &[u8]
    ensures { result.now ≡ after_line text.now }
{
    match memchr(b'\n', text) {
        None => &[],
        Some(end) => &text[end + 1..],
    }
}

// Whether the line with which a text begins is a mark line. Its first byte tells most lines apart,
// so that their tokens are not looked for.
#[tactic(auto, using(crate::proofs::MarkLemmas::other_line))]
fn is_mark(text: &[u8]) -> bool
    ensures { result ≡ is_mark (line_tokens text.now) }
{
    if begins_other(text) {
        return false;
    }
    let mut tokens = Tokens::new(text);
    match tokens.next() {
        None => false,
        Some(token) => is_sign(token) && tokens.is_empty(),
    }
}

// Whether a text begins with a byte of a token other than that of a mark line.
#[inline]
fn begins_other(text: &[u8]) -> bool
    ensures { result ≡ begins_other text.now }
{
    match text {
        [] => false,
        [first, ..] => is_token_byte(*first) && *first != b'%',
    }
}

// Whether a byte may stand in a token: neither a blank nor a line feed.
#[inline]
fn is_token_byte(byte: u8) -> bool
    ensures { result ≡ is_token_byte byte }
{
    !matches!(byte, b' ' | b'\t' | b'\r' | b'\n')
}

// Whether a token is that of a mark line.
fn is_sign(token: &[u8]) -> bool
    ensures { result ≡ is_sign token.now }
{
    matches!(token, b"%%")
}
