// The triangles of a cell by their edges, each edge once.
ghost use Rattle.std.specs.Prelude.{◌≡◌, ◌+◌, ◌≤◌, ◌<◌, IfSome, get_or, length};
ghost use Rattle.arrayvec.specs.ArrayVec.{array_vec_len};
ghost use Rattle.kuhn_cells.specs.declared.edge_key.EdgeKey.{EdgeKey as Key};
ghost use Rattle.tetra_mesh.specs.Edges.{AddsEdge, AddsTriangle, HasTriangles};

use arrayvec::ArrayVec;
use kuhn_cells::{EdgeKey, Triple};

// The most triangles that a cell has.
const TRIANGLES: usize = 12;

// The most edges that twelve triangles have.
pub(crate) const EDGES: usize = 3 * TRIANGLES;

// A triangle by the places of its edges in a list.
#[derive(Clone, Copy, Debug, Default)]
pub(crate) struct Corners {
    pub(crate) a: u8,
    pub(crate) b: u8,
    pub(crate) c: u8,
}

// The edges of some triangles, and the triangles by these.
#[derive(Debug, Drop)]
pub(crate) struct Shape {
    pub(crate) edges: ArrayVec<EdgeKey, EDGES>,
    pub(crate) triangles: ArrayVec<Corners, TRIANGLES>,
}

impl Shape {
    // Of at most twelve triangles.
    pub(crate) fn new(triples: &[Triple]) -> Shape
        requires { length triples.now ≤ TRIANGLES }
        ensures { HasTriangles triples.now result }
    {
        let mut edges = ArrayVec::new();
        let mut triangles = ArrayVec::new();
        for triple in triples {
            push_triangle(triple, &mut edges, &mut triangles);
        }
        Shape { edges, triangles }
    }
}

// Adds a triangle, and those of its edges that are not there.
fn push_triangle(
    triple: &Triple,
    edges: &mut ArrayVec<EdgeKey, EDGES>,
    triangles: &mut ArrayVec<Corners, TRIANGLES>,
)
    requires edges { length edges.old.items ≤ 33 }
    requires triangles { array_vec_len triangles.old < TRIANGLES }
    ensures adds { AddsTriangle triple.now edges.old.items edges.new.items
        triangles.old.items triangles.new.items }
    ensures one { array_vec_len triangles.new ≡ array_vec_len triangles.old + 1 }
{
    let a = place_of(triple.a, edges);
    let b = place_of(triple.b, edges);
    let c = place_of(triple.c, edges);
    triangles.push(Corners { a, b, c });
}

// The place of an edge, which is added where it is not there.
fn place_of(edge: EdgeKey, edges: &mut ArrayVec<EdgeKey, EDGES>) -> u8
    requires { length edges.old.items ≤ 35 }
    ensures { AddsEdge edge edges.old.items edges.new.items result }
{
    if let Some(at) = position(edge, edges.as_slice()) {
        return at as u8;
    }
    let at = edges.len();
    edges.push(edge);
    at as u8
}

// Where an edge stands.
fn position(edge: EdgeKey, edges: &[EdgeKey]) -> Option<usize>
    ensures within { IfSome result (λ at. at < length edges.now) }
    ensures same { IfSome result (λ at. (d : Key) → get_or edges.now at d ≡ edge) }
{
    for at in 0..edges.len() {
        if edges[at] == edge {
            return Some(at);
        }
    }
    None
}
