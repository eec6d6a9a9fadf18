// What the words of a run ask for.
ghost use Rattle.std.specs.Prelude.{◌≡◌, Ok, Err, IfOk};
ghost use Rattle.view_settings.specs.Verbs.{IsJob};
ghost use Rattle.view_settings.specs.Words.{bytes_of};
ghost use Rattle.modeller_cmd.specs.Asking.{asked, asks_nothing, reads_nothing};

use crate::refusal::Refusal;
use view_settings::{Job, read_words};

/// The job that the words ask for, or why they are refused.
pub fn read_job(words: &[String]) -> Result<Job, Refusal>
    ensures job { result ≡ asked (bytes_of words.now) }
    ensures nothing { IfOk result (λ job. reads_nothing job ≡ asks_nothing (bytes_of words.now)) }
    ensures keeps { IfOk result IsJob }
{
    match read_words(words) {
        Ok(job) => Ok(job),
        Err(fault) => Err(Refusal::Words(fault)),
    }
}
