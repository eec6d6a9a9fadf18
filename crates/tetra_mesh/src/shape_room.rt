// Memory for the shapes of cells.
use crate::shapes::Shapes;
use std::alloc::{AllocError, Global};
use std::marker::Model;

/// The triangles of cells by which of their corners are inside, which one caller keeps over many
/// grids: those of a cell are made when the first cell of its kind comes. Contracts see nothing of
/// them, since the faces of no grid hang on what is made already.
#[derive(Debug, Drop)]
pub struct ShapeRoom {
    pub(crate) shapes: Shapes,
}

impl Model for ShapeRoom {
    ghost use Rattle.tetra_mesh.specs.Shapes.{AreMade};

    ghost Value = { Unit {0} };

    ghost view = { λ r. tt };

    ghost invariant = { λ r. AreMade r.shapes };
}

impl ShapeRoom {
    /// No kind of cells. AllocError: there is no memory for the tables that all need.
    pub fn new(alloc: Global) -> Result<ShapeRoom, AllocError> {
        Ok(ShapeRoom {
            shapes: Shapes::none(alloc)?,
        })
    }
}
