//! The program: one run of the modeller on the words, the input and the outputs that it is given.
#![tactic(auto)]

mod end;
mod streams;

ghost use Rattle.std.specs.Prelude.{◌≡◌, ℕ, List, drop, IfOk, IfErr};
ghost use Rattle.std.specs.IoError.{error_kind};
ghost use Rattle.modeller.specs.Ends.{HasRun};
ghost use Rattle.modeller_cmd.specs.Laws.{Laws};
ghost use Rattle.modeller_cmd.specs.Promises.{IsRun};
ghost use Rattle.modeller_cmd.specs.Runs.{run_of};
ghost use Rattle.view_settings.specs.Words.{bytes_of};

use crate::end::{End, exit_code};
use crate::streams::Streams;
use fixed_ops::Tally;
use modeller_cmd::run;
use modeller_io::{Sink, Source};
use std::alloc::Global;
use std::process::ExitCode;
use std::{env, io};

fn main(rt: HostRuntime) -> ExitCode {
    let line = command_line(&rt);
    let mut streams = Streams::standard(&rt);
    exit_code(end_on(rt.alloc(), line, &mut streams, &mut Tally::new()))
}

// The program's name, and the words after it.
fn command_line(rt: &HostRuntime) -> io::Result<Vec<String>> {
    Ok(env::args(rt)?.collect(rt.alloc())?)
}

// Runs the modeller over some streams, on the words of a command line where the system gave it.
fn end_on<S: Source, K: Sink, N: Sink>(
    alloc: Global,
    line: io::Result<Vec<String>>,
    streams: &mut Streams<S, K, N>,
    tally: &mut Tally,
) -> End
    ensures ran { IfOk line (λ line. HasRun result (λ status. IsRun (run_of S.rest S.taken S.faults
        K.held K.faults N.held N.faults (bytes_of (drop 1 line.items)) streams.old.source
        streams.new.source streams.old.out streams.new.out streams.old.notes streams.new.notes
        tally.old tally.new status))) }
    ensures laws { IfOk line (λ line. (input : List ℕ)
        → Laws (bytes_of (drop 1 line.items)) input) }
    ensures wordless { IfErr line (λ error. result ≡ End.Wordless (error_kind error)) }
    ensures untouched { IfErr line (λ error. streams.new ≡ streams.old) }
    ensures uncounted { IfErr line (λ error. tally.new ≡ tally.old) }
{
    match line {
        Ok(line) => End::Ran(run(
            alloc,
            after_name(&line),
            &mut streams.source,
            &mut streams.out,
            &mut streams.notes,
            tally,
        )),
        Err(error) => End::Wordless(error.kind()),
    }
}

// The words after the program's name.
fn after_name(line: &[String]) -> &[String]
    ensures { result.now ≡ drop 1 line.now }
{
    match line {
        [_, words @ ..] => words,
        [] => line,
    }
}
