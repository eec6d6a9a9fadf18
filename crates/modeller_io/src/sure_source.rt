// A source in memory that never fails.
ghost use Rattle.std.specs.Prelude.{◌≡◌, ◌++◌, ◌<◌, ◌≤◌, [], length, take, Some, Ok, IfOk};
ghost use Rattle.modeller_io.specs.Count.{last_count, raised};
ghost use Rattle.modeller_io.specs.SourceView.{given};

use crate::{Failed, Source};
use std::marker::Model;

/// A source over bytes in memory. No call of it fails.
#[derive(Drop)]
pub struct SureSource {
    bytes: Vec<u8>,
    at: usize,
    taken: u64,
    chunk: u64,
}

impl Model for SureSource {
    ghost use Rattle.std.specs.Prelude.{◌<◌, ◌≤◌, drop, vec_len};
    ghost use Rattle.modeller_io.specs.SourceView.{SureSourceView};

    ghost Value = { SureSourceView };

    ghost view = { λ s. record {
      rest = drop s.at s.bytes.items;
      taken = s.taken;
      chunk = s.chunk;
    } };

    ghost invariant = { λ s. (s.at ≤ vec_len s.bytes) × (0 < s.chunk) };
}

impl SureSource {
    /// A source of these bytes, which gives at most `chunk` of them a call.
    pub fn new(bytes: Vec<u8>, chunk: u64) -> SureSource
        requires { 1 ≤ chunk }
        ensures { result ≡ record { rest = bytes.items; taken = 0; chunk = chunk } }
    {
        SureSource {
            bytes,
            at: 0,
            taken: 0,
            chunk,
        }
    }
}

// Copies the front of `bytes` into the front of `buf`, at most `chunk` of them, and says how many.
fn copy_front(bytes: &[u8], chunk: u64, buf: &mut [u8]) -> usize
    ensures count { result ≡ given (length buf.old) chunk bytes.now }
    ensures copied { take result buf.new ≡ take result bytes.now }
{
    let count = buf.len().min(chunk as usize).min(bytes.len());
    buf[..count].copy_from_slice(&bytes[..count]);
    count
}

impl Source for SureSource {
    ghost rest = { λ source. Some source.rest };

    ghost taken = { λ source. source.taken };

    ghost faults = { λ _. 0 };

    /// As the trait says, and no call fails. A call gives as many bytes as the buffer, the chunk and
    /// what is left allow.
    #[tactic(auto, using(crate::proofs::Taking::copy_laws))]
    fn read(&mut self, buf: &mut [u8]) -> Result<usize, Failed>
        ensures within { IfOk result (λ count. count ≤ length buf.new) }
        ensures count { result ≡ Ok (given (length buf.old) self.old.chunk self.old.rest) }
        ensures bytes { let count = given (length buf.old) self.old.chunk self.old.rest in
            self.old.rest ≡ take count buf.new ++ self.new.rest }
        ensures end { result ≡ Ok 0 → 0 < length buf.new → self.old.rest ≡ [] }
        ensures took { let count = given (length buf.old) self.old.chunk self.old.rest in
            self.new.taken ≡ raised self.old.taken count }
        ensures stops { self.new.taken ≤ last_count }
        ensures chunk { self.new.chunk ≡ self.old.chunk }
    {
        let count = copy_front(&self.bytes[self.at..], self.chunk, buf);
        self.at += count;
        self.taken = self.taken.saturating_add(count as u64);
        Ok(count)
    }
}
