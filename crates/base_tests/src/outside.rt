// Each public call once, with ample memory: the objects in memory, the adapters over readers and
// writers in memory, and the two loops. What owns an object hands on what it found of it, and a test
// compares that: a proof is long for each end at which an object is let go.
ghost use Rattle.std.specs.Prelude.{◌<◌, ◌≤◌, ◌^◌, IfOk};

use modeller_io::{
    Failed, MemSink, MemSource, ReadEnd, ReadSource, Sink, Source, SureSink, SureSource, WriteSink,
    read_all, write_all,
};
use std::alloc::{AllocError, Global};
use std::io;
use std::io::{ErrorKind, Read, Write};
use std::test::Fail;

const TEXT: &[u8] = b"abcdefghijklmnopqrst";

// A source of these bytes, of which one call fails.
fn source_of(alloc: Global, bytes: &[u8], chunk: u64, failing: u64) -> Result<MemSource, AllocError>
    requires { 1 ≤ chunk }
{
    let fails = [failing].to_vec(alloc)?;
    Ok(MemSource::new(bytes.to_vec(alloc)?, chunk, fails))
}

// Whether a source that is read up to this limit gives the text, or how else reading ends.
fn gives_text<S: Source>(alloc: Global, source: &mut S, limit: u64) -> Result<bool, ReadEnd>
    requires { limit < 2 ^ 32 }
{
    let bytes = read_all(alloc, source, limit)?;
    Ok(bytes.as_slice() == TEXT)
}

// Whether a sink with this much room, of which one call fails, takes the text with this outcome, and
// then tells that it holds this.
fn takes_text(
    alloc: Global,
    room: usize,
    failing: u64,
    done: Result<(), Failed>,
    held: Option<&[u8]>,
) -> Result<bool, AllocError> {
    let fails = [failing].to_vec(alloc)?;
    let mut sink = MemSink::new(5, fails, vec![in alloc; 0; room]?);
    Ok(write_all(&mut sink, TEXT) == done && sink.held() == held)
}

// The same of one that never fails.
fn surely_takes_text(alloc: Global, room: usize, held: Option<&[u8]>) -> Result<bool, AllocError> {
    let mut sink = SureSink::new(7, vec![in alloc; 0; room]?);
    Ok(write_all(&mut sink, TEXT).is_ok() && sink.held() == held)
}

#[test]
fn a_source_in_memory_gives_chunks_and_fails_where_told(rt: HostRuntime) -> Result<(), Fail> {
    let mut source = source_of(rt.alloc(), b"abcdefghij", 4, 2)?;
    let mut buf = [0; 8];
    let counts = [(); 5].map(|_| source.read(&mut buf));
    assert!(rt; counts == [Ok(4), Err(Failed), Ok(4), Ok(2), Ok(0)]);
    assert!(rt; buf.starts_with(b"ij"));
    Ok(())
}

#[test]
fn reading_ends_at_the_end_the_limit_or_a_fault(rt: HostRuntime) -> Result<(), Fail> {
    for (limit, failing, end) in [
        (20, 99, Ok(true)),
        (19, 99, Err(ReadEnd::TooLong)),
        (0, 99, Err(ReadEnd::TooLong)),
        (20, 3, Err(ReadEnd::Failed)),
    ] {
        let mut source = source_of(rt.alloc(), TEXT, 7, failing)?;
        let found = gives_text(rt.alloc(), &mut source, limit);
        assert!(rt; found == end, "at {limit}, {failing}");
    }
    Ok(())
}

#[test]
fn a_sink_in_memory_holds_what_it_took_where_it_fits(rt: HostRuntime) -> Result<(), Fail> {
    let rows: [(usize, u64, Result<(), Failed>, Option<&[u8]>); 3] = [
        (20, 99, Ok(()), Some(TEXT)),
        (30, 2, Err(Failed), Some(b"abcde")),
        (19, 99, Ok(()), None),
    ];
    for (room, failing, done, held) in rows {
        assert!(rt;
            takes_text(rt.alloc(), room, failing, done, held)?,
            "in {room}"
        );
    }
    Ok(())
}

#[test]
fn what_never_fails_moves_all_the_bytes(rt: HostRuntime) -> Result<(), Fail> {
    let mut source = SureSource::new(TEXT.to_vec(rt.alloc())?, 7);
    let found = [
        gives_text(rt.alloc(), &mut source, 20)?,
        surely_takes_text(rt.alloc(), 20, Some(TEXT))?,
        surely_takes_text(rt.alloc(), 19, None)?,
    ];
    assert!(rt; found == [true; 3]);
    Ok(())
}

// A reader and a writer that moves one byte at its first call, fails at its second, and then moves
// none.
#[derive(Drop)]
struct Flaky {
    calls: u8,
}

impl Flaky {
    fn turn(&mut self, most: usize) -> io::Result<usize>
        ensures { IfOk result (λ count. count ≤ most) }
    {
        self.calls = self.calls.saturating_add(1);
        match self.calls {
            1 => Ok(most.min(1)),
            2 => Err(io::Error::from(ErrorKind::Other)),
            _ => Ok(0),
        }
    }
}

impl Read for Flaky {
    fn read(&mut self, buf: &mut [u8]) -> io::Result<usize> {
        self.turn(buf.len())
    }
}

impl Write for Flaky {
    fn write(&mut self, buf: &[u8]) -> io::Result<usize> {
        self.turn(buf.len())
    }

    fn flush(&mut self) -> io::Result<()> {
        Ok(())
    }
}

// A reader that gives at most three bytes a call.
#[derive(Drop)]
struct Sips {
    rest: &'static [u8],
}

impl Read for Sips {
    fn read(&mut self, buf: &mut [u8]) -> io::Result<usize> {
        let most = buf.len().min(3);
        self.rest.read(&mut buf[..most])
    }
}

// A writer that takes at most so many bytes a call, and fails to flush at one call, counted from 1. It
// counts what is asked of it.
#[derive(Drop)]
struct Bites {
    most: usize,
    failing: u8,
    taken: usize,
    writes: u8,
    flushes: u8,
}

impl Write for Bites {
    fn write(&mut self, buf: &[u8]) -> io::Result<usize> {
        let count = buf.len().min(self.most);
        self.taken = self.taken.saturating_add(count);
        self.writes = self.writes.saturating_add(1);
        Ok(count)
    }

    fn flush(&mut self) -> io::Result<()> {
        self.flushes = self.flushes.saturating_add(1);
        if self.flushes == self.failing {
            return Err(io::Error::from(ErrorKind::Other));
        }
        Ok(())
    }
}

#[test]
fn a_reader_is_a_source(rt: HostRuntime) {
    let ends = [
        gives_text(rt.alloc(), &mut ReadSource::new(TEXT), 20),
        gives_text(rt.alloc(), &mut ReadSource::new(Sips { rest: TEXT }), 20),
        gives_text(rt.alloc(), &mut ReadSource::new(Sips { rest: TEXT }), 19),
    ];
    assert!(rt; ends == [Ok(true), Ok(true), Err(ReadEnd::TooLong)]);

    let mut source = ReadSource::new(Flaky { calls: 0 });
    let counts = [(); 3].map(|_| source.read(&mut [0; 4]));
    assert!(rt; counts == [Ok(1), Err(Failed), Ok(0)]);
}

#[test]
fn a_writer_is_a_sink(rt: HostRuntime) {
    let mut bytes = Vec::new(rt.alloc());
    let done = write_all(&mut WriteSink::new(&mut bytes), TEXT);
    assert!(rt; done.is_ok() && bytes.as_slice() == TEXT);

    let mut sink = WriteSink::new(Flaky { calls: 0 });
    let counts = [TEXT, TEXT, TEXT, b""].map(|piece| sink.write(piece));
    assert!(rt; counts == [Ok(1), Err(Failed), Err(Failed), Ok(0)]);
}

// How many bytes a writer takes a call, its flush that fails, how writing 20 bytes ends, and the bytes, the
// writes and the flushes that were asked of it. Nothing is asked behind what failed.
const BITES: [(usize, u8, Result<(), Failed>, usize, u8, u8); 5] = [
    (20, 0, Ok(()), 20, 1, 1),
    (7, 0, Ok(()), 20, 3, 3),
    (7, 1, Err(Failed), 7, 1, 1),
    (7, 3, Err(Failed), 20, 3, 3),
    (0, 0, Err(Failed), 0, 1, 0),
];

#[test]
fn each_write_is_flushed_once(rt: HostRuntime) {
    for (most, failing, want, taken, writes, flushes) in BITES {
        let mut writer = Bites {
            most,
            failing,
            taken: 0,
            writes: 0,
            flushes: 0,
        };
        let done = write_all(&mut WriteSink::new(&mut writer), TEXT);
        let asked = (done, writer.taken, writer.writes, writer.flushes);
        assert!(rt; asked == (want, taken, writes, flushes), "{most} a call");
    }
}
