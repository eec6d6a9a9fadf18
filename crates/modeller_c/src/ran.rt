// How a run ended, in numbers.

/// How a run ended, in numbers that C can read.
#[repr(C)]
#[derive(Clone, Copy, Debug)]
pub struct Ran {
    /// The number of its status.
    pub status: u64,
    /// How many bytes the output has. They stand at the front of the room for it, or, where that is
    /// shorter, nowhere.
    pub out: u64,
    /// How many bytes the note has. They stand at the front of the room for it, or, where that is
    /// shorter, nowhere.
    pub note: u64,
}
