// The edge to the outside: a writer of std as a sink.
ghost use Rattle.std.specs.Prelude.{◌≡◌, ◌<◌, ◌≤◌, length, take, None, IfOk, OnOk, OnErr};
ghost use Rattle.std.specs.Io.KnownBytes.{Appends};
ghost use Rattle.modeller_io.specs.Count.{RoseBy, Stands};
ghost use Rattle.modeller_io.specs.WriteSink.{writer_of, write_faults, TookFront};

use crate::{Failed, Sink};
use std::io::Write;

/// A writer of std as a sink, which tells no content. Each `Err` of the writer is a fault, that of
/// a flush too, and so is a write that takes no byte of a piece that has some.
#[derive(Drop)]
pub struct WriteSink<W> {
    inner: W,
    faults: u64,
}

impl<W> WriteSink<W> {
    /// A sink over this writer, with no fault yet.
    pub fn new(inner: W) -> WriteSink<W>
        ensures writer { writer_of result ≡ inner }
        ensures faults { write_faults result ≡ 0 }
    {
        WriteSink { inner, faults: 0 }
    }
}

// Writes some of the piece, at least one byte where there is one, and flushes it out.
fn write_through<W: Write>(writer: &mut W, piece: &[u8]) -> Result<usize, Failed>
    ensures within { IfOk result (λ count. count ≤ length piece.now) }
    ensures progress { IfOk result (λ count. 0 < length piece.now → 0 < count) }
    ensures bytes { IfOk result (λ count.
        Appends (W.contents writer.old) (W.contents writer.new) (take count piece.now)) }
    ensures front { OnErr result (TookFront W.contents writer.old writer.new piece.now) }
{
    let count = writer.write(piece).map_err(|_| Failed)?;
    if count == 0 && !piece.is_empty() {
        return Err(Failed);
    }
    writer.flush().map_err(|_| Failed)?;
    Ok(count)
}

impl<W: Write> Sink for WriteSink<W> {
    ghost held = { λ _. None };

    ghost faults = { write_faults };

    /// As the trait says. A call that succeeds has flushed what it wrote, and one that fails counts
    /// one fault. The writer took a front of the piece at most once, also where the call fails.
    #[inline]
    fn write(&mut self, piece: &[u8]) -> Result<usize, Failed>
        ensures within { IfOk result (λ count. count ≤ length piece.now) }
        ensures progress { IfOk result (λ count. 0 < length piece.now → 0 < count) }
        ensures no_fault { OnOk result (Stands write_faults self.old self.new) }
        ensures cause { OnErr result (RoseBy write_faults self.old self.new 1) }

        // What the writer took, where it tells what it holds.
        ensures writer { IfOk result (λ count. Appends
            (W.contents (writer_of self.old)) (W.contents (writer_of self.new))
            (take count piece.now)) }
        ensures writer_err { OnErr result
            (TookFront W.contents (writer_of self.old) (writer_of self.new) piece.now) }
    {
        let written = write_through(&mut self.inner, piece);
        if written.is_err() {
            self.faults = self.faults.saturating_add(1);
        }
        written
    }
}
