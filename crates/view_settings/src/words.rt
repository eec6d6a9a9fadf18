// What words ask for.
ghost use Rattle.std.specs.Prelude.{◌≡◌, IfOk};
ghost use Rattle.view_settings.specs.Verbs.{IsJob};
ghost use Rattle.view_settings.specs.Words.{after_words, bytes_of, job_of, refused_at};

use crate::verb::read_verb;
use crate::{Job, Settings, WordFault, WordReason};

/// The job that words ask for: a verb, and then its settings, each a word `name=value`, in any
/// order.
///
/// The first word that is refused is answered, and of its reasons the lowest, in the order in which
/// `WordReason` has them. `EmptySpan`, `CellTooSmall` and `TooManyCells` are asked after all words.
pub fn read_words(words: &[String]) -> Result<Job, WordFault>
    ensures job { result ≡ job_of (bytes_of words.now) }
    ensures keeps { IfOk result IsJob }
{
    let [first, rest @ ..] = words else {
        return Err(fault(0, WordReason::NoVerb));
    };
    let Some(verb) = read_verb(first.as_bytes()) else {
        return Err(fault(1, WordReason::UnknownVerb));
    };
    let settings = take_words(Settings::start(verb), rest)?;
    match settings.finish() {
        Ok(job) => Ok(job),
        Err(reason) => Err(fault(0, reason)),
    }
}

// The settings with those of the words.
fn take_words(settings: Settings, words: &[String]) -> Result<Settings, WordFault>
    ensures { result ≡ after_words settings (bytes_of words.now) }
{
    let mut settings = settings;
    for word in words {
        let at = settings.len() + 2;
        if let Err(reason) = settings.take(word.as_bytes()) {
            return Err(fault(at, reason));
        }
    }
    Ok(settings)
}

// A refusal of the word of this number.
fn fault(at: u32, reason: WordReason) -> WordFault
    ensures { result ≡ record { at = at; reason = reason } }
{
    WordFault { at, reason }
}
