// What a job reads.

/// What a job reads.
#[derive(Clone, Copy, Debug, PartialEq, Eq)]
pub enum Reads {
    /// Nothing: it makes its own model.
    Nothing,
    /// The text of a model.
    Model,
    /// The text of a model, and a script after it.
    Script,
    /// The text of a solid, written as forms.
    Solid,
    /// A mesh, in the ASCII form of PLY.
    Mesh,
}
