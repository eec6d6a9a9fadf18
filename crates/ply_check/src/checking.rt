// What is found of faces, worked out.
ghost use Rattle.std.specs.Prelude.{◌≡◌, ℕ, ◌<◌, ◌≤◌, ◌*◌, ◌^◌, All, IfOk, MatchOption, get_or, length};
ghost use Rattle.std.specs.List.{HoldsAt};
ghost use Rattle.mesh_laws.specs.Closed.{IsTriangle, directed_edges};
ghost use Rattle.ply_check.specs.Corners.{corners, triples};
ghost use Rattle.ply_check.specs.Lowest.{IsLowestFault};
ghost use Rattle.ply_check.specs.Verdicts.{Verdict};

use crate::Finding;
use crate::mesh_faults::Faults;
use std::alloc::{AllocError, Global};

/// What is found of faces on the vertices below a count, in time that grows with the faces.
///
/// Each face tells the numbers of its three vertices. No memory is taken for vertices above those
/// that faces have. AllocError: there is no memory for what is counted of the faces.
pub fn verdict(alloc: Global, count: u32, faces: &[[u32; 3]]) -> Result<Finding, AllocError>
    requires below { All (All (λ v. v < count)) faces.now }
    requires few { length faces.now < 2 ^ 31 }
    ensures { IfOk result (Verdict count (triples faces.now)) }
{
    if let Some(face) = first_degenerate(faces) {
        return Ok(Finding::Face(face));
    }
    let faults = Faults::of(alloc, faces, top_of(faces))?;
    if faults.edge < 3 * faces.len() as u64 {
        let (from, to) = edge_at(faces, faults.edge);
        Ok(Finding::Edge(from, to))
    } else if faults.vertex < count {
        Ok(Finding::Vertex(faults.vertex))
    } else {
        Ok(Finding::Closed)
    }
}

// The number of the first face whose vertices do not all differ.
fn first_degenerate(faces: &[[u32; 3]]) -> Option<u32>
    requires { length faces.now < 2 ^ 31 }
    ensures { MatchOption result (All IsTriangle (triples faces.now))
        (λ face. IsLowestFault (HoldsAt IsTriangle (triples faces.now)) (length (triples faces.now)) face) }
{
    for number in 0..faces.len() as u32 {
        let [a, b, c] = faces[number as usize];
        if a == b || b == c || c == a {
            return Some(number);
        }
    }
    None
}

// The number above the greatest vertex of a face, and 0 where there is no face.
fn top_of(faces: &[[u32; 3]]) -> u32
    requires { (count : ℕ) × (count < 2 ^ 32) × All (All (λ v. v < count)) faces.now }
    ensures below { All (λ v. v < result) (corners faces.now) }
    ensures few { (count : ℕ) → All (All (λ v. v < count)) faces.now → result ≤ count }
{
    let mut top = 0;
    for number in 0..faces.len() {
        let [a, b, c] = faces[number];
        top = top.max(a + 1).max(b + 1).max(c + 1);
    }
    top
}

// The edge at a place among those of all faces.
fn edge_at(faces: &[[u32; 3]], place: u64) -> (u32, u32)
    requires { place < 3 * length faces.now }
    ensures { result ≡ get_or (directed_edges (triples faces.now)) place (0, 0) }
{
    let [a, b, c] = faces[(place / 3) as usize];
    let corner = place % 3;
    if corner == 0 {
        (a, b)
    } else if corner == 1 {
        (b, c)
    } else {
        (c, a)
    }
}
