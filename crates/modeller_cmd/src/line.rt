// A line of text, made without memory.
ghost use Rattle.std.specs.Prelude.{◌≡◌, ◌+◌, ◌≤◌, ◌++◌, [], decimal, length};
ghost use Rattle.modeller_cmd.specs.declared.line.TheConstants.{LINE_LIMIT};

use arrayvec::ArrayVec;
use itoa::Buffer;
use std::marker::Model;

/// The most bytes that a line has: more than the longest place of a fault, a number of twenty digits
/// and the longest name of a reason need.
pub const LINE_LIMIT: usize = 64;

/// A line of at most 64 bytes, made without memory. Contracts see its bytes.
#[derive(Drop)]
pub struct Line {
    bytes: ArrayVec<u8, LINE_LIMIT>,
}

impl Model for Line {
    ghost use Rattle.std.specs.Prelude.{ℕ, List};

    ghost Value = { List ℕ };

    ghost view = { λ line. line.bytes.items };
}

impl Line {
    /// A line of no bytes.
    pub fn new() -> Line
        ensures { result ≡ [] }
    {
        Line {
            bytes: ArrayVec::new(),
        }
    }

    /// Adds a text.
    pub fn push(&mut self, text: &[u8])
        requires { length self.old + length text.now ≤ LINE_LIMIT }
        ensures { self.new ≡ self.old ++ text.now }
    {
        self.bytes.try_extend_from_slice(text).unwrap();
    }

    /// Adds a number in decimal.
    pub fn push_number(&mut self, number: u64)
        requires { length self.old + 20 ≤ LINE_LIMIT }
        ensures digits { self.new ≡ self.old ++ decimal number }
        ensures short { length self.new ≤ length self.old + 20 }
    {
        let mut buffer = Buffer::new();
        self.push(buffer.format(number).as_bytes());
    }

    /// Its bytes.
    pub fn bytes(&self) -> &[u8]
        ensures { result.now ≡ self.now }
    {
        self.bytes.as_slice()
    }
}
