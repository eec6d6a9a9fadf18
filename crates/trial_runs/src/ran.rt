// What a run leaves, as plain values.
ghost use Rattle.std.specs.Prelude.{◌≡◌, ◌↔◌, ℕ, take};

use fixed_ops::Tally;
use modeller_cmd::Status;

/// What a sink holds, beside the bytes that it should hold.
#[derive(Clone, Copy, Debug, PartialEq, Eq)]
pub enum Held {
    /// All of them, and nothing else.
    All,
    /// The first ones, so many and not all, and nothing else.
    Front(usize),
    /// Something else, or more than there is room for.
    Other,
}

impl Held {
    /// What holds these bytes where it should hold those.
    pub fn beside(held: &[u8], wanted: &[u8]) -> Held
        ensures all { result ≡ Held.All ↔ held.now ≡ wanted.now }
        ensures front { (count : ℕ) → result ≡ Held.Front count → held.now ≡ take count wanted.now }
    {
        if held == wanted {
            return Held::All;
        }
        if wanted.starts_with(held) {
            return Held::Front(held.len());
        }
        Held::Other
    }
}

/// How a run ends, beside how it should.
#[derive(Clone, Copy, Debug, PartialEq, Eq)]
pub struct Ending {
    /// The status.
    pub status: Status,
    /// The output.
    pub out: Held,
    /// The notes.
    pub notes: Held,
}

impl Ending {
    /// An end with this status, and with all that should be written and noted.
    pub fn wanted(status: Status) -> Ending
        ensures { result ≡ record { status = status; out = Held.All; notes = Held.All } }
    {
        Ending {
            status,
            out: Held::All,
            notes: Held::All,
        }
    }
}

/// What one more read, of 80 bytes, gives after a run.
#[derive(Clone, Copy, Debug, PartialEq, Eq)]
pub enum Rest {
    /// The first bytes of the input, as if none of it had been read.
    All,
    /// It fails.
    Fails,
    /// Other bytes, or none.
    Other,
}

/// What a run counts.
#[derive(Clone, Copy, Debug, PartialEq, Eq)]
pub struct Work {
    /// Evaluations of a clause at a point.
    pub points: u64,
    /// Hulls of a clause over a box.
    pub spans: u64,
    /// Corners of hulls.
    pub corners: u64,
}

impl Work {
    /// What a tally holds.
    pub fn of(tally: &Tally) -> Work
        ensures { result ≡ record {
          points = tally.now.points;
          spans = tally.now.spans;
          corners = tally.now.corners;
        } }
    {
        Work {
            points: tally.points(),
            spans: tally.spans(),
            corners: tally.corners(),
        }
    }
}

/// What a run leaves.
#[derive(Clone, Copy, Debug, PartialEq, Eq)]
pub struct Ran {
    /// How it ends.
    pub ending: Ending,
    /// What it counts.
    pub work: Work,
    /// What is left of the input.
    pub rest: Rest,
}

/// What a run writes.
#[derive(Drop)]
pub struct Written {
    /// The status.
    pub status: Status,
    /// The output, or nothing where there is no room for all of it.
    pub bytes: Vec<u8>,
    /// What it counts.
    pub work: Work,
}
