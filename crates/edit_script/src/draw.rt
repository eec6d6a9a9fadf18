// Draws.
ghost use Rattle.std.specs.Prelude.{◌≡◌, IfOk};
ghost use Rattle.edit_script.specs.Commands.{draw_read, job_or_bad, IsCommand};
ghost use Rattle.view_settings.specs.Verbs.{IsJob};
ghost use Rattle.view_settings.specs.Words.{job_after};

use crate::{Command, ScriptReason};
use clause_reader::Tokens;
use view_settings::{Job, Settings, Verb};

/// The command that draws as this verb, with these settings. A script draws what is named here, and
/// nothing else.
pub(crate) fn read_draw(verb: Verb, tokens: Tokens<'_>) -> Result<Command<'_>, ScriptReason>
    ensures value { result ≡ draw_read verb tokens.entry }
    ensures keeps { IfOk result IsCommand }
{
    match read_settings(verb, tokens)? {
        Job::Render(view) => Ok(Command::Render(view)),
        Job::Height(view) => Ok(Command::Height(view)),
        Job::Mesh(view) => Ok(Command::Mesh(view)),
        _ => Err(ScriptReason::BadSetting),
    }
}

// The job of a verb with these settings.
fn read_settings(verb: Verb, mut tokens: Tokens<'_>) -> Result<Job, ScriptReason>
    ensures value { result ≡ job_or_bad (job_after tokens.entry verb) }
    ensures keeps { IfOk result IsJob }
{
    let mut settings = Settings::start(verb);
    while let Some(word) = tokens.next() {
        if settings.take(word).is_err() {
            return Err(ScriptReason::BadSetting);
        }
    }
    match settings.finish() {
        Ok(job) => Ok(job),
        Err(_) => Err(ScriptReason::BadSetting),
    }
}
