// Faces of a mesh.
use std::marker::Model;

/// A face of a mesh: a triangle, by the numbers of its three vertices.
#[derive(Clone, Copy, Debug, Default, PartialEq, Eq)]
pub struct Face {
    /// The number of the first vertex.
    pub a: u32,
    /// The number of the second vertex.
    pub b: u32,
    /// The number of the third vertex.
    pub c: u32,
}

impl Model for Face {
    ghost use Rattle.kuhn_cells.specs.Faces.{Face as Corners};

    ghost Value = { Corners };

    ghost view = { λ f. record { a = f.a; b = f.b; c = f.c } };

    ghost inverse = { λ f. record { a = f.a; b = f.b; c = f.c } };
}
