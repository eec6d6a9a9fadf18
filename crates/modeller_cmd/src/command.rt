// The modeller's one call.
ghost use Rattle.std.specs.Prelude.{◌≡◌, ◌≢◌, ◌+◌, ◌<◌, ◌≤◌, ℕ, List, [], Some, length, vec_len, false, true, Ok, Err, IfOk, IsOk, IfSome, OnOk};
ghost use Rattle.modeller_io.specs.Count.{last_count, RoseAtMost, RoseBy, Stands};
ghost use Rattle.modeller_io.specs.Took.{LosesAtMost};
ghost use Rattle.view_settings.specs.Verbs.{IsJob};
ghost use Rattle.view_settings.specs.Words.{bytes_of};
ghost use Rattle.modeller_cmd.specs.Asking.{input_told, reads_nothing};
ghost use Rattle.modeller_cmd.specs.Endings.{IsRefusal, ReadsWhole, TakesLine, line_after, status_after};
ghost use Rattle.modeller_cmd.specs.Execution.{Executed};
ghost use Rattle.modeller_cmd.specs.Laws.{Laws};
ghost use Rattle.modeller_cmd.specs.Notes.{line_of};
ghost use Rattle.modeller_cmd.specs.Output.{input_limit};
ghost use Rattle.modeller_cmd.specs.Promises.{Always, IsDone, IsOutOfMemory, IsReadFault, IsRefused, IsRun, IsWriteFault};
ghost use Rattle.modeller_cmd.specs.Runs.{run_of};

use crate::Status;
use crate::asking::read_job;
use crate::checking::check;
use crate::count::count;
use crate::drawing::draw;
use crate::forge::forge;
use crate::note::note_of;
use crate::replay::replay;
use crate::solid::solid;
use crate::stop::Stop;
use crate::task::Task;
use fixed_ops::Tally;
use modeller_io::{ReadEnd, Sink, Source, read_all, write_all};
use std::alloc::Global;
use view_settings::{Job, Reads};

// The most bytes that an input may have.
const INPUT_LIMIT: u64 = 8_388_608;

/// Runs the modeller: reads the words and the source, and writes what they ask for to `out`, or one
/// line to `notes` that says why there is nothing. `tally` counts the work.
///
/// `source` and `out` may fail, and memory may be refused: then the status says so, and `out` holds a
/// prefix of the output. A failure of `notes` changes no status.
pub fn run<S: Source, K: Sink, N: Sink>(
    alloc: Global,
    words: &[String],
    source: &mut S,
    out: &mut K,
    notes: &mut N,
    tally: &mut Tally,
) -> Status
    // All of the output is written and counted, and nothing is noted.
    ensures done { result ≡ Status.Done → IsDone (run_of S.rest S.taken S.faults K.held K.faults
        N.held N.faults (bytes_of words.now) source.old source.new out.old out.new notes.old
        notes.new tally.old tally.new result) }
    // Statuses 2 to 5: nothing is written or counted, and the notes say why.
    ensures refused { IsRefusal result → IsRefused (run_of S.rest S.taken S.faults K.held K.faults
        N.held N.faults (bytes_of words.now) source.old source.new out.old out.new notes.old
        notes.new tally.old tally.new result) }
    // The source failed: nothing is written or counted.
    ensures read_fault { result ≡ Status.ReadFault → IsReadFault (run_of S.rest S.taken S.faults
        K.held K.faults N.held N.faults (bytes_of words.now) source.old source.new out.old out.new
        notes.old notes.new tally.old tally.new result) }
    // The sink failed, and took a proper prefix of the output.
    ensures write_fault { result ≡ Status.WriteFault → IsWriteFault (run_of S.rest S.taken S.faults
        K.held K.faults N.held N.faults (bytes_of words.now) source.old source.new out.old out.new
        notes.old notes.new tally.old tally.new result) }
    // Nothing is written, but by a script what its first commands write.
    ensures out_of_memory { result ≡ Status.NoMemory → IsOutOfMemory (run_of S.rest S.taken S.faults
        K.held K.faults N.held N.faults (bytes_of words.now) source.old source.new out.old out.new
        notes.old notes.new tally.old tally.new result) }
    // Whatever the status: its exact causes, and what no run exceeds.
    ensures always { Always (run_of S.rest S.taken S.faults K.held K.faults N.held N.faults
        (bytes_of words.now) source.old source.new out.old out.new notes.old notes.new tally.old
        tally.new result) }
    // And the output, of whatever input: sound meshes, closed contours, true verdicts, the models that
    // stand in the frames of a script.
    ensures laws { (input : List ℕ) → Laws (bytes_of words.now) input }
{
    run_and_report(alloc, words, source, out, notes, tally)
}

/// Reads, works and writes, and reports to the notes why there is nothing.
pub(crate) fn run_and_report<S: Source, K: Sink, N: Sink>(
    alloc: Global,
    words: &[String],
    source: &mut S,
    out: &mut K,
    notes: &mut N,
    tally: &mut Tally,
) -> Status
    ensures run { IsRun (run_of S.rest S.taken S.faults K.held K.faults N.held N.faults
        (bytes_of words.now) source.old source.new out.old out.new notes.old notes.new tally.old
        tally.new result) }
    ensures laws { (input : List ℕ) → Laws (bytes_of words.now) input }
{
    match work(alloc, words, source, out, tally) {
        Ok(()) => Status::Done,
        Err(stop) => {
            tell(notes, stop);
            stop.status()
        }
    }
}

// Writes the line of a stop to the notes, whose failure changes nothing else.
fn tell<N: Sink>(notes: &mut N, stop: Stop)
    ensures { TakesLine N.held N.faults notes.old notes.new (line_of stop) }
{
    let _ = write_all(notes, note_of(stop).bytes());
}

// Reads, works and writes, up to what ends the run: as a run does whose notes take all that the stop
// says.
fn work<S: Source, K: Sink>(
    alloc: Global,
    words: &[String],
    source: &mut S,
    out: &mut K,
    tally: &mut Tally,
) -> Result<(), Stop>
    ensures run { IsRun (run_of S.rest S.taken S.faults K.held K.faults Some (λ _. 0) (bytes_of
        words.now) source.old source.new out.old out.new [] (line_after result) tally.old tally.new
        (status_after result)) }
    ensures laws { (input : List ℕ) → Laws (bytes_of words.now) input }
{
    let job = read_job(words)?;
    let input = read_input(alloc, &job, source)?;
    execute(alloc, &job, &input, out, tally)
}

// The input of a job, which is all that the source has, where the job reads any.
fn read_input<S: Source>(alloc: Global, job: &Job, source: &mut S) -> Result<Vec<u8>, ReadEnd>
    // Ok: the whole input, which is within the limit.
    ensures within { IfOk result (λ input. vec_len input ≤ input_limit) }
    ensures took { IfOk result (λ input. RoseBy S.taken source.old source.new (vec_len input)) }
    ensures all { IfOk result (λ input.
        IfSome (input_told S.rest source.old (reads_nothing job.now)) (λ bytes.
        input.items ≡ bytes)) }
    ensures whole { reads_nothing job.now ≡ false
        → OnOk result (ReadsWhole S.rest source.old source.new) }
    ensures unasked { reads_nothing job.now ≡ true → IsOk result × (source.new ≡ source.old) }

    // When each error comes, and what it took.
    ensures failed { result ≡ Err ReadEnd.Failed → RoseBy S.faults source.old source.new 1 }
    ensures no_fault { result ≢ Err ReadEnd.Failed → Stands S.faults source.old source.new }
    ensures too_long { result ≡ Err ReadEnd.TooLong
        → IfSome (S.rest source.old) (λ bytes. input_limit < length bytes) }
    ensures too_long_took { result ≡ Err ReadEnd.TooLong
        → RoseBy S.taken source.old source.new (input_limit + 1) }
    ensures too_long_there { S.taken source.new ≡ S.taken source.old + (input_limit + 1)
        → S.taken source.new < last_count → result ≡ Err ReadEnd.TooLong }
    ensures lost { LosesAtMost S.rest S.taken source.old source.new (input_limit + 1) }
{
    match job.reads() {
        Reads::Nothing => Ok(Vec::new(alloc)),
        Reads::Model | Reads::Script | Reads::Solid | Reads::Mesh => {
            let input = read_all(alloc, source, INPUT_LIMIT)?;
            Ok(input)
        }
    }
}

// Executes a job on an input, and writes what it makes: the table of the tasks. All memory is taken
// before the first byte is written, but by a script, of which each part is written as soon as it is
// made.
fn execute<K: Sink>(
    alloc: Global,
    job: &Job,
    input: &[u8],
    out: &mut K,
    tally: &mut Tally,
) -> Result<(), Stop>
    requires keeps { IsJob job.now }
    requires limit { length input.now ≤ input_limit }
    ensures { Executed K.held K.faults out.old out.new tally.old tally.new job.now input.now
        result }
{
    match Task::of(job) {
        Task::Draw(frame) => draw(alloc, &frame, input, out, tally),
        Task::Count(view) => count(alloc, &view, input, out, tally),
        Task::Forge(wanted) => forge(alloc, &wanted, out, tally),
        Task::Replay => replay(alloc, input, out, tally),
        Task::Solid => solid(alloc, input, out),
        Task::Check => check(alloc, input, out),
    }
}
