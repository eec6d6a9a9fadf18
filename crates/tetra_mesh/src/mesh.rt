// Meshes.
use crate::{Face, Vertex};
use std::marker::Model;

/// A mesh: its vertices, numbered from 0, and its faces.
#[derive(Debug, Drop)]
pub struct Mesh {
    /// The vertices.
    pub vertices: Vec<Vertex>,
    /// The faces.
    pub faces: Vec<Face>,
}

impl Model for Mesh {
    ghost use Rattle.tetra_mesh.specs.Meshes.{Triangulation};

    ghost Value = { Triangulation };

    ghost view = { λ m. record { vertices = m.vertices.items; faces = m.faces.items } };
}
