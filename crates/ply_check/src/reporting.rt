// The line that says what is found of the mesh in a file.
ghost use Rattle.std.specs.Prelude.{◌≡◌, ◌≢◌, ◌^◌, ◌<◌, Ok, Err, IfErr, IfOk, length};
ghost use Rattle.ply_check.specs.declared.finding.Finding.TheVariants.{Closed, Edge, Face, Vertex};
ghost use Rattle.ply_check.specs.ReadingLaws.{IsSmall};
ghost use Rattle.ply_check.specs.Reports.{finding_line, mesh_line, reported};

use crate::{Finding, PlyFault, PlyFile, PlyReason, read_ply, verdict};
use std::alloc::{AllocError, Global};

/// The line that says what is found of the mesh in a file: `closed manifold` with the numbers of its
/// vertices and of its faces, or else `face`, `edge` or `vertex` with the number of the first face
/// whose vertices do not all differ, the first edge that does not pair up with one other, or the lowest
/// vertex whose faces do not make one fan.
///
/// An `Err` tells the first line that is refused and why, or `NoMemory`.
#[tactic(auto, using(crate::proofs::Theorems::reading_is_worked_out))]
pub fn report(alloc: Global, bytes: &[u8]) -> Result<Vec<u8>, PlyFault>
    requires { length bytes.now < 2 ^ 32 }
    ensures line { IfOk result (λ line. reported bytes.now ≡ Ok line.items) }
    ensures fault { IfErr result (λ fault. fault.reason ≢ PlyReason.NoMemory
        → reported bytes.now ≡ Err fault) }
{
    let file = read_ply(alloc, bytes)?;
    match mesh_line(alloc, &file) {
        Ok(line) => Ok(line),
        Err(_) => Err(PlyFault {
            line: 0,
            reason: PlyReason::NoMemory,
        }),
    }
}

// The line of a mesh. AllocError: there is no memory to look at its faces, or for the line.
fn mesh_line(alloc: Global, file: &PlyFile) -> Result<Vec<u8>, AllocError>
    requires { IsSmall file.now.count file.now.faces.items }
    ensures { IfOk result (λ line. line.items ≡ mesh_line (file.now.count, file.now.faces.items)) }
{
    let finding = verdict(alloc, file.count, &file.faces)?;
    finding_line(alloc, finding, file.count, file.faces.len() as u32)
}

// The line of what is found of so many faces on so many vertices.
fn finding_line(
    alloc: Global,
    finding: Finding,
    count: u32,
    faces: u32,
) -> Result<Vec<u8>, AllocError>
    ensures { IfOk result (λ line. line.items ≡ finding_line finding count faces) }
{
    match finding {
        Finding::Closed => closed_line(alloc, count, faces),
        Finding::Face(face) => said_face(alloc, face),
        Finding::Edge(from, to) => edge_line(alloc, from, to),
        Finding::Vertex(vertex) => vertex_line(alloc, vertex),
    }
}

// The line of closed faces.
fn closed_line(alloc: Global, count: u32, faces: u32) -> Result<Vec<u8>, AllocError>
    ensures { IfOk result (λ line. line.items ≡ finding_line Closed count faces) }
{
    let line = format!(in alloc; "closed manifold {count} {faces}\n")?;
    Ok(line.into_bytes())
}

// The line of a face whose vertices do not all differ.
fn said_face(alloc: Global, face: u32) -> Result<Vec<u8>, AllocError>
    ensures { IfOk result (λ line. line.items ≡ finding_line (Face face) 0 0) }
{
    let line = format!(in alloc; "face {face}\n")?;
    Ok(line.into_bytes())
}

// The line of an edge that is not paired.
fn edge_line(alloc: Global, from: u32, to: u32) -> Result<Vec<u8>, AllocError>
    ensures { IfOk result (λ line. line.items ≡ finding_line (Edge from to) 0 0) }
{
    let line = format!(in alloc; "edge {from} {to}\n")?;
    Ok(line.into_bytes())
}

// The line of a vertex without a fan.
fn vertex_line(alloc: Global, vertex: u32) -> Result<Vec<u8>, AllocError>
    ensures { IfOk result (λ line. line.items ≡ finding_line (Vertex vertex) 0 0) }
{
    let line = format!(in alloc; "vertex {vertex}\n")?;
    Ok(line.into_bytes())
}
