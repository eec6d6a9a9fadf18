// The call.
ghost use Rattle.std.specs.Prelude.{◌≡◌, ◌≢◌, ◌⊎◌, [], IfOk, OnErr};
ghost use Rattle.modeller_cmd.specs.Notes.{line_of};
ghost use Rattle.modeller_cmd.specs.Output.{output_of};
ghost use Rattle.modeller_cmd.specs.Parts.{bytes_of_parts};
ghost use Rattle.modeller_cmd.specs.Statuses.{number_of};
ghost use Rattle.modeller_cmd.specs.declared.status.Status.TheVariants.{Done, NoMemory};
ghost use Rattle.modeller_cmd.specs.declared.stop.Stop.TheVariants as stop;
ghost use Rattle.modeller_c.specs.Calls.{IsCall, WasRun};
ghost use Rattle.modeller_c.specs.Rooms.{IsHandedOver};
ghost use Rattle.modeller_c.specs.Words.{words_in};

use crate::Ran;
use crate::gathered::Gathered;
use crate::rooms::hand_over;
use crate::words::words_of;
use fixed_ops::Tally;
use modeller_cmd::{Status, run};
use modeller_io::SureSource;
use std::alloc::{AllocError, Global};

// How many bytes the source gives a call.
const PIECE: u64 = 65_536;

// The note of a call to which memory was refused outside its run, as a run has it.
const NO_MEMORY_NOTE: &[u8] = b"modeller: no memory\n";

/// Runs the modeller on the words of a line, over an input, and leaves the output in `out`, the note
/// in `note`, and in `ran` how it ended. Nothing else outlives the call.
///
/// A room that is too short is unchanged, and `ran` says how long it has to be: the caller calls again
/// with one that is.
#[unsafe(no_mangle)]
pub extern "C" fn modeller_run(
    alloc: Global,
    line: &[u8],
    input: &[u8],
    out: &mut [u8],
    note: &mut [u8],
    ran: &mut Ran,
)
    // The status is that of the words and the input, or memory was refused.
    ensures answer { (ran.new.status ≡ number_of (output_of (words_in line.now) input.now).status)
        ⊎ (ran.new.status ≡ number_of NoMemory) }
    // The output of a run that is done, and the line of one that is refused: handed over to the last
    // byte, or the length of a room that is long enough.
    ensures done { ran.new.status ≡ number_of Done
        → IsHandedOver (bytes_of_parts (output_of (words_in line.now) input.now).parts) out.old
        out.new ran.new.out }
    ensures refused { ran.new.status ≢ number_of Done → ran.new.status ≢ number_of NoMemory
        → IsHandedOver [] out.old out.new ran.new.out
        × IsHandedOver (output_of (words_in line.now) input.now).note note.old note.new ran.new.note }
    // Whatever the status: a run, all that it wrote and noted, and nothing else of the rooms changed.
    ensures call { IsCall line.now input.now out.old out.new note.old note.new ran.new }
{
    match run_on(alloc, line, input, out, note) {
        Ok(ended) => *ran = ended,
        Err(AllocError) => *ran = without_memory(note),
    }
}

// What a call answers to which memory was refused outside its run.
fn without_memory(note: &mut [u8]) -> Ran
    ensures status { result.status ≡ number_of NoMemory }
    ensures out { result.out ≡ 0 }
    ensures note { IsHandedOver (line_of stop.NoMemory) note.old note.new result.note }
{
    Ran {
        status: Status::NoMemory.number() as u64,
        out: 0,
        note: hand_over(NO_MEMORY_NOTE, note),
    }
}

// Runs the modeller, and hands over what it wrote and noted, unless memory for that is refused.
fn run_on(
    alloc: Global,
    line: &[u8],
    input: &[u8],
    out: &mut [u8],
    note: &mut [u8],
) -> Result<Ran, AllocError>
    ensures run { IfOk result (WasRun line.now input.now out.old out.new note.old note.new) }
    ensures out_unchanged { OnErr result (out.new ≡ out.old) }
    ensures note_unchanged { OnErr result (note.new ≡ note.old) }
{
    let words = words_of(alloc, line)?;
    let mut source = SureSource::new(input.to_vec(alloc)?, PIECE);
    let mut written = Gathered::new(alloc, out.len())?;
    let mut noted = Gathered::new(alloc, note.len())?;
    let status = run(
        alloc,
        &words,
        &mut source,
        &mut written,
        &mut noted,
        &mut Tally::new(),
    );
    let output = written.whole()?;
    let line_noted = noted.whole()?;
    Ok(Ran {
        status: status.number() as u64,
        out: hand_over(output, out),
        note: hand_over(line_noted, note),
    })
}
