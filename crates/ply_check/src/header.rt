// The header of a file.
ghost use Rattle.std.specs.Prelude.{◌≡◌, ◌≢◌, ◌^◌, ◌<◌, Err, IfErr, MatchResult, length};
ghost use Rattle.ply_check.specs.Answers.{header_answer, vertices_answer};
ghost use Rattle.ply_check.specs.Passes.{Passes};
ghost use Rattle.ply_check.specs.declared.stage.Stage.TheVariants.{Opened};

use crate::fault::{fault, too_short};
use crate::header_line::read_header_line;
use crate::stage::{Stage, Step};
use crate::{PlyFault, PlyReason};
use clause_reader::Lines;

/// What a header says.
#[derive(Clone, Copy, Debug, PartialEq, Eq)]
pub(crate) struct Header {
    /// How many vertices there are.
    pub vertices: u32,
    /// How many properties a vertex has, at least one.
    pub width: u32,
    /// How many faces there are.
    pub faces: u32,
}

// The header of the lines behind the first, which are left behind it.
pub(crate) fn read_header(lines: &mut Lines<'_>) -> Result<Header, PlyFault>
    requires { length lines.old < 2 ^ 32 }
    ensures passed { MatchResult result
        (λ header. Passes (header_answer Opened) (vertices_answer header header.vertices)
        lines.old lines.new)
        (λ fault. header_answer Opened lines.old ≡ Err fault) }
    ensures reason { IfErr result (λ fault. fault.reason ≢ PlyReason.NoMemory) }
{
    let mut stage = Stage::Opened;
    while let Some(line) = lines.next() {
        let number = line.number;
        match stage.after(read_header_line(line)) {
            None => return Err(fault(number, PlyReason::BadHeader)),
            Some(Step::Out(header)) => return Ok(header),
            Some(Step::On(next)) => stage = next,
        }
    }
    Err(too_short())
}
