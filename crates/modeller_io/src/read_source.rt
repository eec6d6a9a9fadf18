// The edge to the outside: a reader of std as a source.
ghost use Rattle.std.specs.Prelude.{◌≡◌, ◌<◌, ◌≤◌, length, take, None, Ok, IfOk, OnOk, OnErr};
ghost use Rattle.std.specs.Io.KnownBytes.{Consumes, IsAtEnd, Keeps};
ghost use Rattle.modeller_io.specs.Count.{last_count, RoseBy, Stands};
ghost use Rattle.modeller_io.specs.ReadSource.{reader_of, bytes_read, read_faults};

use crate::{Failed, Source};
use std::io::Read;

/// A reader of std as a source, which tells no content. Each `Err` of the reader is a fault.
#[derive(Drop)]
pub struct ReadSource<R> {
    inner: R,
    taken: u64,
    faults: u64,
}

impl<R> ReadSource<R> {
    /// A source over this reader, with no byte taken and no fault yet.
    pub fn new(inner: R) -> ReadSource<R>
        ensures reader { reader_of result ≡ inner }
        ensures taken { bytes_read result ≡ 0 }
        ensures faults { read_faults result ≡ 0 }
    {
        ReadSource {
            inner,
            taken: 0,
            faults: 0,
        }
    }
}

impl<R: Read> Source for ReadSource<R> {
    ghost rest = { λ _. None };

    ghost taken = { bytes_read };

    ghost faults = { read_faults };

    /// As the trait says. The bytes are those of one read of the reader, and a call that fails
    /// counts one fault.
    #[inline]
    fn read(&mut self, buf: &mut [u8]) -> Result<usize, Failed>
        ensures within { IfOk result (λ count. count ≤ length buf.new) }
        ensures took { IfOk result (λ count. RoseBy bytes_read self.old self.new count) }
        ensures stops { bytes_read self.new ≤ last_count }
        ensures no_fault { OnOk result (Stands read_faults self.old self.new) }
        ensures cause { OnErr result (RoseBy read_faults self.old self.new 1) }
        ensures err { OnErr result (Stands bytes_read self.old self.new) }

        // What the reader gave, where it tells what is left.
        ensures reader { IfOk result (λ count. Consumes
            (R.remaining (reader_of self.old)) (R.remaining (reader_of self.new))
            (take count buf.new)) }
        ensures reader_end { result ≡ Ok 0 → 0 < length buf.new
            → IsAtEnd (R.remaining (reader_of self.old)) }
        ensures reader_err { OnErr result
            (Keeps (R.remaining (reader_of self.old)) (R.remaining (reader_of self.new))) }
    {
        let taken = self.taken;
        match self.inner.read(buf) {
            Ok(count) => {
                self.taken = taken.saturating_add(count as u64);
                Ok(count)
            }
            Err(_) => {
                self.faults = self.faults.saturating_add(1);
                Err(Failed)
            }
        }
    }
}
