// Memory for texts of meshes.
use arrayvec::ArrayVec;
use ply_writer::PlyBlock;
use std::alloc::{AllocError, Global};
use tetra_mesh::{FACES, Face, ShapeRoom};
use view_places::View;

/// Memory for the texts of meshes, with what is worked out once for many of them, which one caller
/// keeps.
#[derive(Debug, Drop)]
pub struct TextRoom {
    pub(crate) shapes: ShapeRoom,
    pub(crate) faces: Box<ArrayVec<Face, FACES>>,
    pub(crate) block: PlyBlock,
}

impl TextRoom {
    // Memory for texts over this view, or over others. AllocError: there is not enough.
    pub(crate) fn new(alloc: Global, view: &View) -> Result<TextRoom, AllocError> {
        Ok(TextRoom {
            shapes: ShapeRoom::new(alloc)?,
            faces: Box::new(alloc, ArrayVec::new())?,
            block: PlyBlock::new(alloc, view)?,
        })
    }
}
