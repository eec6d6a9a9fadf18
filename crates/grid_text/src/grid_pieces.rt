// The text of the mesh of a grid, made piece by piece.
ghost use Rattle.std.specs.Prelude.{◌≡◌, ◌<◌, ◌≤◌, ◌^◌, ◌↔◌, ◌++◌, [], IfOk, IsFalse, IsTrue, length};
ghost use Rattle.grid_text.specs.Texts.{text_of};

use crate::face_lines::put_faces;
use crate::sided_cells::sided_cells;
use crate::text_room::TextRoom;
use crate::vertex_lines::put_vertices;
use arrayvec::ArrayVec;
use oct_descent::CellGrid;
use ply_writer::{PlyBlock, room_for};
use std::alloc::{AllocError, Global};
use std::marker::Model;
use tetra_mesh::{FACES, Face, FaceWalk};

/// The text of the mesh of a grid, made piece by piece in one block. Of a cell its place and sides
/// stand in memory, and no list of vertices or faces. Contracts see the piece that was made last and
/// what comes after it.
#[derive(Debug, Drop)]
pub struct GridPieces<'a> {
    grid: &'a CellGrid,
    walk: FaceWalk,
    // Of how many cells the lines of the vertices are made.
    lined: usize,
    // Memory for the faces of the next cells.
    faces: Box<ArrayVec<Face, FACES>>,
    block: PlyBlock,
}

impl<'a> Model for GridPieces<'a> {
    ghost use Rattle.ply_writer.specs.Pieces.{Stage};
    ghost use Rattle.grid_text.specs.Texts.{IsWriting, lines_left};

    ghost Value = { Stage };

    ghost view = { λ p. record {
      piece = p.block.bytes;
      rest = lines_left p.grid.now.view p.grid.now.list p.lined p.walk.made;
    } };

    ghost invariant = { λ p. IsWriting p.grid.now.view p.grid.now.list p.walk p.lined p.block };
}

impl<'a> GridPieces<'a> {
    /// The pieces of the text of the mesh of a grid. The first one, the header, is made. AllocError:
    /// there is no memory for the places and sides of the mixed cells, for the numbers of the
    /// vertices of two layers, or for the block.
    pub fn new(alloc: Global, grid: &'a CellGrid) -> Result<GridPieces<'a>, AllocError>
        ensures { IfOk result (λ p. p.piece ++ p.rest ≡ text_of grid.now.view grid.now.list) }
    {
        GridPieces::over(alloc, grid, TextRoom::new(alloc, grid.view())?)
    }

    // The same in memory that there is already. AllocError: there is not enough of it, and it is given
    // up.
    pub(crate) fn over(
        alloc: Global,
        grid: &'a CellGrid,
        room: TextRoom,
    ) -> Result<GridPieces<'a>, AllocError>
        ensures { IfOk result (λ p. p.piece ++ p.rest ≡ text_of grid.now.view grid.now.list) }
    {
        let sided = sided_cells(alloc, grid)?;
        let TextRoom {
            shapes,
            faces,
            mut block,
        } = room;
        let walk = FaceWalk::over(alloc, grid.n(), sided, shapes)?;
        block.restart(alloc, grid.view())?;
        block.put_header(walk.vertex_count() as u32, walk.face_count() as u32);
        Ok(GridPieces {
            grid,
            walk,
            lined: 0,
            faces,
            block,
        })
    }

    // Its memory, for other texts.
    pub(crate) fn into_room(self) -> TextRoom {
        TextRoom {
            shapes: self.walk.into_room(),
            faces: self.faces,
            block: self.block,
        }
    }

    // A bound on the bytes of the whole text, near to them.
    pub(crate) fn room(&self) -> usize {
        room_for(
            self.walk.vertex_count(),
            self.walk.face_count(),
            self.grid.view(),
        )
    }

    /// The piece that was made last.
    #[inline]
    pub fn piece(&self) -> &[u8]
        ensures piece { result.now ≡ self.now.piece }
        ensures few { length result.now ≤ 2 ^ 16 }
    {
        self.block.piece()
    }

    /// Makes the next piece, of whole lines and at most 64 KiB, and says whether there is one. It
    /// takes no memory.
    pub fn advance(&mut self) -> bool
        ensures more { IsTrue result → self.old.rest ≡ self.new.piece ++ self.new.rest }
        ensures shorter { IsTrue result → length self.new.rest < length self.old.rest }
        ensures done { IsFalse result ↔ self.old.rest ≡ [] }
    {
        self.block.clear();
        self.lined = put_vertices(self.grid, self.walk.cells(), self.lined, &mut self.block);
        if !self.block.piece().is_empty() {
            return true;
        }
        put_faces(&mut self.walk, &mut self.faces, &mut self.block);
        !self.block.piece().is_empty()
    }
}
