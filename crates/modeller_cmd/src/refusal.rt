// Why a run does nothing.

use crate::Status;
use crate::bad_text::BadText;
use edit_script::ScriptFault;
use view_settings::WordFault;

/// Why a run does nothing: what it was given is refused.
#[derive(Clone, Copy, Debug, PartialEq, Eq)]
pub enum Refusal {
    /// The words are refused.
    Words(WordFault),
    /// The input has more bytes than are accepted.
    TooLong,
    /// The text of the job is refused.
    Text(BadText),
    /// The script is refused.
    Script(ScriptFault),
}

impl Refusal {
    ghost use Rattle.std.specs.Prelude.{◌≡◌};
    ghost use Rattle.modeller_cmd.specs.Statuses.{status_of};

    /// The status that it ends a run with.
    pub fn status(self) -> Status
        ensures { result ≡ status_of self }
    {
        match self {
            Refusal::Words(_) => Status::Usage,
            Refusal::TooLong => Status::TooLong,
            Refusal::Text(_) => Status::BadModel,
            Refusal::Script(_) => Status::BadScript,
        }
    }
}
