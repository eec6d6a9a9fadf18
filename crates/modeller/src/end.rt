// How the program ends.
ghost use Rattle.std.specs.Prelude.{◌≡◌};
ghost use Rattle.std.specs.Process.{exit_status};
ghost use Rattle.modeller.specs.Ends.{number_of_end};

use modeller_cmd::Status;
use std::io::ErrorKind;
use std::process::ExitCode;

// What the program ends with where the system does not give its words as text. No status has this number.
const WORDS_UNREADABLE: u8 = 1;

/// How the program ends.
#[derive(Clone, Copy, Debug, PartialEq, Eq)]
pub enum End {
    /// After a run with this status.
    Ran(Status),
    /// Without a run, since its words were not given as text, for this reason.
    Wordless(ErrorKind),
}

/// The code that the program ends with.
pub fn exit_code(end: End) -> ExitCode
    ensures { exit_status result ≡ number_of_end end }
{
    match end {
        End::Ran(status) => ExitCode::from(status.number()),
        End::Wordless(ErrorKind::OutOfMemory) => ExitCode::from(Status::NoMemory.number()),
        End::Wordless(_) => ExitCode::from(WORDS_UNREADABLE),
    }
}
