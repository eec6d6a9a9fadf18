// Triangles between the corners of a tetrahedron.
use crate::EdgeKey;

/// A triangle by the three edges on which its vertices lie, counterclockwise as seen from the
/// outside.
#[derive(Clone, Copy, Debug, Default, PartialEq, Eq)]
pub struct Triple {
    /// The edge of the first vertex.
    pub a: EdgeKey,
    /// The edge of the second vertex.
    pub b: EdgeKey,
    /// The edge of the third vertex.
    pub c: EdgeKey,
}
