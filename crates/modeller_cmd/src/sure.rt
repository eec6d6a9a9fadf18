// A run none of whose reads and writes can fail.
ghost use Rattle.std.specs.Prelude.{◌≡◌, ◌⊎◌, ℕ, List, Some};
ghost use Rattle.view_settings.specs.Words.{bytes_of};
ghost use Rattle.modeller_cmd.specs.Laws.{Laws};
ghost use Rattle.modeller_cmd.specs.Output.{output_of};
ghost use Rattle.modeller_cmd.specs.Promises.{IsRun};
ghost use Rattle.modeller_cmd.specs.Runs.{run_of};
ghost use Rattle.modeller_cmd.specs.declared.status.Status.TheVariants.{NoMemory};

use crate::Status;
use crate::command::run_and_report;
use fixed_ops::Tally;
use modeller_io::{SureSink, SureSource};
use std::alloc::Global;

/// Runs the modeller over a source and sinks that never fail. It answers the status that the words
/// ask for of the source's bytes, whatever they are, or that memory was refused, and nothing else.
/// What it leaves, tells and counts is what `run` says.
pub fn run_surely(
    alloc: Global,
    words: &[String],
    source: &mut SureSource,
    out: &mut SureSink,
    notes: &mut SureSink,
    tally: &mut Tally,
) -> Status
    ensures answer { (result ≡ (output_of (bytes_of words.now) source.old.rest).status)
        ⊎ (result ≡ NoMemory) }
    ensures run { IsRun (run_of (λ s. Some s.rest) (λ s. s.taken) (λ _. 0) (λ s. s.held) (λ _. 0)
        (λ s. s.held) (λ _. 0) (bytes_of words.now) source.old source.new out.old out.new
        notes.old notes.new tally.old tally.new result) }
    ensures laws { (input : List ℕ) → Laws (bytes_of words.now) input }
{
    run_and_report(alloc, words, source, out, notes, tally)
}
