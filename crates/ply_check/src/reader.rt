// A mesh from a file.
ghost use Rattle.std.specs.Prelude.{◌≡◌, ◌≢◌, ◌^◌, ◌<◌, Ok, Err, ◌∷◌, length, IfErr, IfOk, MatchResult};
ghost use Rattle.ply_check.specs.Answers.{header_answer, ply_answer};
ghost use Rattle.ply_check.specs.declared.stage.Stage.TheVariants.{Opened};
ghost use Rattle.ply_check.specs.Gives.{Gives};
ghost use Rattle.ply_check.specs.HeaderLines.{is_ply};
ghost use Rattle.ply_check.specs.Passes.{Passes, WantsFace};

use crate::faces::read_faces;
use crate::fault::fault;
use crate::header::read_header;
use crate::vertices::pass_vertices;
use crate::words::is_word;
use crate::{PlyFault, PlyFile, PlyReason};
use clause_reader::{Comments, Line, Lines};
use std::alloc::Global;

/// The mesh that a file says in the ASCII form of PLY: a header, a line for each vertex and a line
/// for each face. Blank lines say nothing, and neither do comments in the header. What the lines of
/// the vertices say is not read.
///
/// An `Err` tells the first line that is refused and why, or `NoMemory` on the line of a face up to
/// which none is refused.
pub fn read_ply(alloc: Global, bytes: &[u8]) -> Result<PlyFile, PlyFault>
    requires { length bytes.now < 2 ^ 32 }
    ensures { Gives bytes.now result }
{
    let mut lines = Lines::new(bytes, Comments::Kept);
    read_lines(alloc, &mut lines)
}

// The mesh that the lines of a file say.
fn read_lines(alloc: Global, lines: &mut Lines<'_>) -> Result<PlyFile, PlyFault>
    requires { length lines.old < 2 ^ 32 }
    ensures file { IfOk result
        (λ file. ply_answer lines.old ≡ Ok (file.count, file.faces.items)) }
    ensures fault { IfErr result (λ fault. fault.reason ≢ PlyReason.NoMemory
        → ply_answer lines.old ≡ Err fault) }
    ensures memory { IfErr result (λ fault. fault.reason ≡ PlyReason.NoMemory
        → WantsFace ply_answer lines.old fault.line) }
{
    pass_first(lines)?;
    let header = read_header(lines)?;
    pass_vertices(lines, header)?;
    let faces = read_faces(alloc, lines, header)?;
    match lines.next() {
        None => Ok(PlyFile {
            count: header.vertices,
            faces,
        }),
        Some(line) => Err(fault(line.number, PlyReason::TooLong)),
    }
}

// Passes the first line.
fn pass_first(lines: &mut Lines<'_>) -> Result<(), PlyFault>
    ensures passed { MatchResult result
        (λ _. Passes ply_answer (header_answer Opened) lines.old lines.new)
        (λ fault. ply_answer lines.old ≡ Err fault) }
    ensures reason { IfErr result (λ fault. fault.reason ≢ PlyReason.NoMemory) }
{
    let Some(line) = lines.next() else {
        return Err(fault(0, PlyReason::NotPly));
    };
    let number = line.number;
    if is_ply(line) {
        Ok(())
    } else {
        Err(fault(number, PlyReason::NotPly))
    }
}

// Whether a line is the one with which a file begins.
fn is_ply(line: Line<'_>) -> bool
    ensures { result ≡ is_ply (line.entry.first.now ∷ line.entry.others) }
{
    let mut others = line.others;
    is_word(line.first, b"ply") && others.next().is_none()
}
