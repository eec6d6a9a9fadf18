// What the program reads and writes.
ghost use Rattle.std.specs.Prelude.{◌≡◌};
ghost use Rattle.modeller_io.specs.ReadSource.{bytes_read, read_faults};
ghost use Rattle.modeller_io.specs.WriteSink.{write_faults};

use modeller_io::{ReadSource, WriteSink};
use std::rt::{Stderr, Stdin, Stdout};

/// What is read, what the work is written to, and what the notes are written to.
#[derive(Drop)]
pub struct Streams<S, K, N> {
    pub source: S,
    pub out: K,
    pub notes: N,
}

impl Streams<ReadSource<Stdin>, WriteSink<Stdout>, WriteSink<Stderr>> {
    /// The standard streams, before the first call of each.
    pub fn standard(rt: &HostRuntime) -> Self
        ensures taken { bytes_read result.source ≡ 0 }
        ensures read_faults { read_faults result.source ≡ 0 }
        ensures write_faults { write_faults result.out ≡ 0 }
        ensures note_faults { write_faults result.notes ≡ 0 }
    {
        Streams {
            source: ReadSource::new(rt.stdin()),
            out: WriteSink::new(rt.stdout()),
            notes: WriteSink::new(rt.stderr()),
        }
    }
}
