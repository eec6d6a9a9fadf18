// The lines of the vertices.
ghost use Rattle.std.specs.Prelude.{◌≡◌, ◌≢◌, ◌==◌, [], ◌∷◌, Err, IfErr, MatchResult, length};
ghost use Rattle.ply_check.specs.Answers.{faces_answer, vertices_answer};
ghost use Rattle.ply_check.specs.Passes.{Passes};

use crate::fault::{fault, too_short};
use crate::header::Header;
use crate::{PlyFault, PlyReason};
use clause_reader::{Line, Lines};

// Passes the lines of the vertices.
pub(crate) fn pass_vertices(lines: &mut Lines<'_>, header: Header) -> Result<(), PlyFault>
    ensures passed { MatchResult result
        (λ _. Passes (vertices_answer header header.vertices)
        (faces_answer header.vertices header.faces []) lines.old lines.new)
        (λ fault. vertices_answer header header.vertices lines.old ≡ Err fault) }
    ensures reason { IfErr result (λ fault. fault.reason ≢ PlyReason.NoMemory) }
{
    let mut left = header.vertices;
    while left > 0 {
        let Some(line) = lines.next() else {
            return Err(too_short());
        };
        let number = line.number;
        if !has_width(line, header.width) {
            return Err(fault(number, PlyReason::BadVertex));
        }
        left -= 1;
    }
    Ok(())
}

// Whether a line has so many tokens.
fn has_width(line: Line<'_>, width: u32) -> bool
    ensures { result ≡ (length (line.entry.first.now ∷ line.entry.others) == width) }
{
    let mut others = line.others;
    let mut seen = 1;
    while others.next().is_some() {
        if seen >= width {
            return false;
        }
        seen += 1;
    }
    seen == width
}
