// One run over an input and two outputs in memory.
use crate::{Calls, Ending, Held, Ran, Rest, Work, Written};
use fixed_ops::Tally;
use modeller_cmd::{Status, run};
use modeller_io::{MemSink, MemSource, Source};
use std::alloc::{AllocError, Global};

/// A run to be made: its words, its input, and how its source and sinks take their calls.
#[derive(Clone, Copy)]
pub struct Trial<'a> {
    /// The words.
    pub words: &'a [&'a str],
    /// All that the source has.
    pub input: &'a [u8],
    /// The calls of the source.
    pub reads: Calls,
    /// The calls of the output.
    pub writes: Calls,
    /// The calls of the notes.
    pub notes: Calls,
}

impl<'a> Trial<'a> {
    /// A run on these words over this input, at which no call fails.
    pub fn new(words: &'a [&'a str], input: &'a [u8]) -> Trial<'a> {
        Trial {
            words,
            input,
            reads: Calls::sure(),
            writes: Calls::sure(),
            notes: Calls::sure(),
        }
    }

    /// Runs the modeller, which should write these bytes and note those.
    pub fn run(&self, alloc: Global, out: &[u8], note: &[u8]) -> Result<Ran, AllocError> {
        self.run_counted(alloc, &mut Tally::new(), out, note)
    }

    /// Runs the modeller, which should write these bytes and note those. Its work is counted beside what the
    /// tally holds, and what the tally holds then is told.
    pub fn run_counted(
        &self,
        alloc: Global,
        tally: &mut Tally,
        out: &[u8],
        note: &[u8],
    ) -> Result<Ran, AllocError> {
        let mut sides = Sides::new(alloc, self, out.len(), note.len())?;
        let status = sides.run(alloc, self.words, tally)?;
        Ok(Ran {
            ending: Ending {
                status,
                out: held_beside(sides.out.held(), out),
                notes: held_beside(sides.notes.held(), note),
            },
            work: Work::of(tally),
            rest: sides.rest(self.input),
        })
    }

    /// Runs the modeller, which should write nothing and note a reason at a place, as at a line.
    pub fn run_refused(
        &self,
        alloc: Global,
        place: &str,
        number: u32,
        reason: &str,
    ) -> Result<Ran, AllocError> {
        let note = format!(in alloc; "modeller: {place} {number}: {reason}\n")?;
        self.run(alloc, b"", note.as_bytes())
    }

    /// Runs the modeller, and gives what it writes where that is no more than `room` bytes.
    pub fn written(&self, alloc: Global, room: usize) -> Result<Written, AllocError> {
        let mut tally = Tally::new();
        let mut sides = Sides::new(alloc, self, room, 0)?;
        let status = sides.run(alloc, self.words, &mut tally)?;
        Ok(Written {
            status,
            bytes: sides.out.held().unwrap_or(b"").to_vec(alloc)?,
            work: Work::of(&tally),
        })
    }
}

// What a run reads and writes.
#[derive(Drop)]
struct Sides {
    source: MemSource,
    out: MemSink,
    notes: MemSink,
}

impl Sides {
    // The sides of a run that is to be made, with room for so many bytes.
    fn new(alloc: Global, trial: &Trial, out: usize, notes: usize) -> Result<Sides, AllocError> {
        Ok(Sides {
            source: trial.reads.source(alloc, trial.input)?,
            out: trial.writes.sink(alloc, out)?,
            notes: trial.notes.sink(alloc, notes)?,
        })
    }

    // Runs the modeller on these words.
    fn run(
        &mut self,
        alloc: Global,
        words: &[&str],
        tally: &mut Tally,
    ) -> Result<Status, AllocError> {
        let given = word_list(alloc, words)?;
        Ok(run(
            alloc,
            &given,
            &mut self.source,
            &mut self.out,
            &mut self.notes,
            tally,
        ))
    }

    // What one more read gives, beside the front of this input.
    fn rest(&mut self, input: &[u8]) -> Rest {
        let mut buf = [0; 80];
        match self.source.read(&mut buf) {
            Ok(count) if &buf[..count] == &input[..input.len().min(80)] => Rest::All,
            Ok(_) => Rest::Other,
            Err(_) => Rest::Fails,
        }
    }
}

// Words as a run takes them.
pub(crate) fn word_list(alloc: Global, words: &[&str]) -> Result<Vec<String>, AllocError> {
    let mut list = Vec::new(alloc);
    for word in words {
        list.push(String::from_str(alloc, word)?)?;
    }
    Ok(list)
}

// What a sink tells, beside the bytes that it should hold.
pub(crate) fn held_beside(held: Option<&[u8]>, wanted: &[u8]) -> Held {
    match held {
        Some(held) => Held::beside(held, wanted),
        None => Held::Other,
    }
}
