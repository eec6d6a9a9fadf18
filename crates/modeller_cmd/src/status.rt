// How a run ends.

/// How a run ends, with the number that the program ends with.
#[derive(Clone, Copy, Debug, PartialEq, Eq)]
pub enum Status {
    /// The work is written whole.
    Done = 0,
    /// The words are refused. Nothing was read.
    Usage = 2,
    /// The text of the job is refused.
    BadModel = 3,
    /// The script is refused.
    BadScript = 4,
    /// The input has more than 8,388,608 bytes.
    TooLong = 5,
    /// The source failed.
    ReadFault = 6,
    /// The sink failed, after some of the bytes perhaps.
    WriteFault = 7,
    /// Memory was refused.
    NoMemory = 8,
}

impl Status {
    ghost use Rattle.std.specs.Prelude.{◌≡◌};
    ghost use Rattle.modeller_cmd.specs.Statuses.{number_of};

    /// The number that the program ends with.
    pub fn number(self) -> u8
        ensures { result ≡ number_of self }
    {
        self as u8
    }
}
