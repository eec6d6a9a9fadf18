// The lines of the faces.
ghost use Rattle.std.specs.Prelude.{◌≡◌, ◌≢◌, ◌^◌, ◌<◌, [], ◌∷◌, ◌++◌, Some, Err, IfErr, IfOk, OnOk};
ghost use Rattle.ply_check.specs.Answers.{end_answer, faces_answer};
ghost use Rattle.ply_check.specs.FaceLines.{said_face, face_of};
ghost use Rattle.ply_check.specs.Passes.{Passes, WantsFace};

use crate::fault::{fault, too_short};
use crate::header::Header;
use crate::words::{is_word, whole_number};
use crate::{PlyFault, PlyReason};
use clause_reader::{Line, Lines};
use std::alloc::{AllocError, Global};

// The bytes of the shortest line of a face, with its line feed.
const SHORTEST: usize = 8;

// The faces that the next lines say. Room is first made for as many as the bytes that are left can
// say at most, whatever the header tells.
pub(crate) fn read_faces(
    alloc: Global,
    lines: &mut Lines<'_>,
    header: Header,
) -> Result<Vec<[u32; 3]>, PlyFault>
    ensures faces { IfOk result (λ faces.
        Passes (faces_answer header.vertices header.faces [])
        (end_answer header.vertices faces.items) lines.old lines.new) }
    ensures fault { IfErr result (λ fault. fault.reason ≢ PlyReason.NoMemory
        → faces_answer header.vertices header.faces [] lines.old ≡ Err fault) }
    ensures memory { IfErr result (λ fault. fault.reason ≡ PlyReason.NoMemory
        → WantsFace (faces_answer header.vertices header.faces []) lines.old fault.line) }
{
    let mut faces = Vec::new(alloc);
    let mut left = header.faces;
    while left > 0 {
        let Some(line) = lines.next() else {
            return Err(too_short());
        };
        let number = line.number;
        let bytes = line.others.rest().len();
        let face = match read_face(line, header.vertices) {
            Ok(face) => face,
            Err(reason) => return Err(fault(number, reason)),
        };
        if push_face(&mut faces, face, left, bytes).is_err() {
            return Err(fault(number, PlyReason::NoMemory));
        }
        left -= 1;
    }
    Ok(faces)
}

// Adds a face, of so many that are left in so many bytes behind its first token.
fn push_face(
    faces: &mut Vec<[u32; 3]>,
    face: [u32; 3],
    left: u32,
    bytes: usize,
) -> Result<(), AllocError>
    requires { 0 < left }
    ensures { OnOk result (faces.new.items ≡ faces.old.items ++ face ∷ []) }
{
    if faces.is_empty() {
        faces.reserve_exact((bytes / SHORTEST).min(left as usize - 1) + 1)?;
    }
    Ok(faces.push(face)?)
}

// The face that a line says, of so many vertices.
fn read_face(line: Line<'_>, count: u32) -> Result<[u32; 3], PlyReason>
    ensures { result ≡ said_face count (line.entry.first.now ∷ line.entry.others) }
{
    let mut others = line.others;
    let Some(a) = others.next() else {
        return Err(PlyReason::BadFace);
    };
    let Some(b) = others.next() else {
        return Err(PlyReason::BadFace);
    };
    let Some(c) = others.next() else {
        return Err(PlyReason::BadFace);
    };
    match others.next() {
        None if is_word(line.first, b"3") => {
            face_of(count, whole_number(a), whole_number(b), whole_number(c))
        }
        _ => Err(PlyReason::BadFace),
    }
}

// The face of three numbers of vertices, of which there are so many.
fn face_of(
    count: u32,
    a: Option<u64>,
    b: Option<u64>,
    c: Option<u64>,
) -> Result<[u32; 3], PlyReason>
    ensures { result ≡ face_of count a b c }
{
    match (a, b, c) {
        (Some(a), Some(b), Some(c)) => corners_below(u64::from(count), a, b, c),
        _ => Err(PlyReason::BadFace),
    }
}

// The face of three numbers, which are to be below this one.
fn corners_below(count: u64, a: u64, b: u64, c: u64) -> Result<[u32; 3], PlyReason>
    requires { count < 2 ^ 32 }
    ensures { result ≡ face_of count (Some a) (Some b) (Some c) }
{
    if a < count && b < count && c < count {
        Ok([a as u32, b as u32, c as u32])
    } else {
        Err(PlyReason::BadIndex)
    }
}
