// The end of a line.
ghost use Rattle.std.specs.Prelude.{◌≡◌, position};
ghost use Rattle.clause_reader.specs.Lines.{is_feed};
ghost use Rattle.clause_reader.specs.Scan.{after_line};

/// What stands after the line with which a text begins, and its line feed.
#[inline]
pub fn after_line(text: &[u8]) -> &[u8]
    ensures { result.now ≡ after_line text.now }
{
    match first_feed(text) {
        None => &[],
        Some(end) => &text[end + 1..],
    }
}

// The place of the first line feed.
fn first_feed(text: &[u8]) -> Option<usize>
    ensures { result ≡ position is_feed text.now }
{
    text.iter().position(|byte| *byte == b'\n')
}
