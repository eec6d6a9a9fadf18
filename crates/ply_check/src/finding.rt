// What is found of faces.

/// What is found of faces: that they are closed and a manifold, or the first thing that breaks it.
#[derive(Clone, Copy, Debug, PartialEq, Eq)]
pub enum Finding {
    /// The faces are closed, and a manifold.
    Closed,
    /// The number of the first face whose three vertices do not all differ.
    Face(u32),
    /// The first directed edge, from one vertex to another, that occurs in another place too, or
    /// whose reverse does not occur in exactly one.
    Edge(u32, u32),
    /// The lowest vertex whose faces do not make one fan that closes round it, one without a face
    /// among them.
    Vertex(u32),
}
