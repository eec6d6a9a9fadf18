// The words of a line.
ghost use Rattle.std.specs.Prelude.{◌≡◌, ◌∷◌, [], ◌++◌, IfOk};
ghost use Rattle.view_settings.specs.Words.{bytes_of};
ghost use Rattle.modeller_c.specs.Words.{words_in};

use clause_reader::Tokens;
use std::alloc::{AllocError, Global};

/// The words of a line.
pub(crate) fn words_of(alloc: Global, line: &[u8]) -> Result<Vec<String>, AllocError>
    ensures { IfOk result (λ words. bytes_of words.items ≡ words_in line.now) }
{
    let mut words = Vec::new(alloc);
    let mut tokens = Tokens::new(line);
    while let Some(token) = tokens.next() {
        let Ok(text) = std::str::from_utf8(token) else {
            return Ok(Vec::new(alloc));
        };
        push_word(alloc, &mut words, text)?;
    }
    Ok(words)
}

// Puts a word after the others.
fn push_word(alloc: Global, words: &mut Vec<String>, text: &str) -> Result<(), AllocError>
    ensures { IfOk result (λ done. bytes_of words.new.items
        ≡ bytes_of words.old.items ++ text.now ∷ []) }
{
    words.push(String::from_str(alloc, text)?)?;
    Ok(())
}
