// Vertices of a mesh.
use kuhn_cells::EdgeKey;

/// A vertex of a mesh, by the edge on which it lies.
#[derive(Clone, Copy, Debug, Default, PartialEq, Eq)]
pub struct Vertex {
    /// The edge.
    pub key: EdgeKey,
    /// How far it lies from the lower point, in parts of 65536 of the edge.
    pub t: u32,
}
