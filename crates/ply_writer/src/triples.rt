// Counts, written three digits at a time.
ghost use Rattle.std.specs.Prelude.{◌≡◌, ◌+◌, ◌≤◌, ◌<◌, ◌∷◌, ◌++◌, IfOk, length, drop, decimal};
ghost use Rattle.ply_writer.specs.Triples.{AreTriples, triple_text, zeros_before};

use crate::digits::{COUNT, digits_before};
use fixed_ops::byte_before;
use std::alloc::{AllocError, Global};

// The three digits of each number below a thousand, and in front of them how many of these are
// zeros that the number's own text has not. The four bytes are copied at once.
#[derive(Debug, Drop)]
pub(crate) struct Triples {
    pub(crate) texts: Vec<[u8; 4]>,
}

impl Triples {
    // AllocError: there is no memory for them.
    pub(crate) fn new(alloc: Global) -> Result<Triples, AllocError>
        ensures { IfOk result AreTriples }
    {
        let mut texts = Vec::with_capacity(alloc, 1000)?;
        for number in 0..1000u16 {
            texts.push(text(number))?;
        }
        Ok(Triples { texts })
    }

    // Writes the digits of a count before `end`, and returns where they start.
    #[inline(always)]
    #[tactic(auto, using(crate::proofs::DigitLaws::count_short))]
    pub(crate) fn count_before(&self, count: u32, line: &mut [u8], end: usize) -> usize
        requires triples { AreTriples self.now }
        requires room { COUNT ≤ end }
        requires within { end ≤ length line.old }
        ensures few { end ≤ result + COUNT }
        ensures before { result ≤ end }
        ensures written { drop result line.new ≡ decimal count ++ drop end line.old }
    {
        if 1000 <= count && count < 1_000_000 {
            let start = self.triple_before(count % 1000, line, end);
            return self.front_before(count / 1000, line, start);
        }
        if 1_000_000 <= count && count < 1_000_000_000 {
            let last = self.triple_before(count % 1000, line, end);
            let start = self.triple_before(count / 1000 % 1000, line, last);
            return self.front_before(count / 1_000_000, line, start);
        }
        digits_before(count, line, end)
    }

    // Writes the digits of a number below a thousand before `end`, and returns where they start.
    #[inline(always)]
    fn front_before(&self, number: u32, line: &mut [u8], end: usize) -> usize
        requires triples { AreTriples self.now }
        requires number { number < 1000 }
        requires room { 4 ≤ end }
        requires within { end ≤ length line.old }
        ensures few { end ≤ result + 3 }
        ensures before { result ≤ end }
        ensures written { drop result line.new ≡ decimal number ++ drop end line.old }
    {
        let start = self.triple_before(number, line, end);
        start + usize::from(self.texts[number as usize][0])
    }

    // Writes three digits before `end`, and returns where they start. What stands in front of them
    // is written over too.
    #[inline(always)]
    fn triple_before(&self, number: u32, line: &mut [u8], end: usize) -> usize
        requires triples { AreTriples self.now }
        requires number { number < 1000 }
        requires room { 4 ≤ end }
        requires within { end ≤ length line.old }
        ensures start { result + 3 ≡ end }
        ensures written { drop result line.new ≡ triple_text number ++ drop end line.old }
    {
        let [zeros, hundreds, tens, ones] = self.texts[number as usize];
        let third = byte_before(ones, line, end);
        let second = byte_before(tens, line, third);
        let first = byte_before(hundreds, line, second);
        let _front = byte_before(zeros, line, first);
        first
    }
}

// How many zeros the three digits of a number below a thousand begin with that its own text has
// not, and the three digits.
fn text(number: u16) -> [u8; 4]
    requires { number < 1000 }
    ensures { result ≡ zeros_before number ∷ triple_text number }
{
    [
        zeros(number),
        b'0' + (number / 100) as u8,
        b'0' + (number / 10 % 10) as u8,
        b'0' + (number % 10) as u8,
    ]
}

// How many digits the text of a number below a thousand lacks of three.
#[tactic(auto, using(crate::proofs::TripleLaws::one_long, crate::proofs::TripleLaws::two_long, crate::proofs::TripleLaws::three_long))]
fn zeros(number: u16) -> u8
    requires { number < 1000 }
    ensures { result ≡ zeros_before number }
{
    match number {
        0..=9 => 2,
        10..=99 => 1,
        _ => 0,
    }
}
