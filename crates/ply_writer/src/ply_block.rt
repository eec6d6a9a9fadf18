// Pieces of the text of a mesh, made in one block.
ghost use Rattle.std.specs.Prelude.{◌≡◌, ◌+◌, ◌*◌, ◌≤◌, ◌^◌, ◌++◌, [], All, IfOk, OnErr, OnOk, length};
ghost use Rattle.std.specs.List.{flat_map};
ghost use Rattle.tetra_mesh.specs.Places.{IsPlaced};
ghost use Rattle.ply_writer.specs.Ply.{face_line, ply_header, vertex_line};

use crate::header::{HEADER, header_before};
use crate::line::{FACE_LINE, VERTEX_LINE, face_lines, vertex_lines};
use crate::point_texts::PointTexts;
use crate::triples::Triples;
use std::alloc::{AllocError, Global};
use std::marker::Model;
use tetra_mesh::{Face, GridPlaces, Vertex};
use view_places::View;

/// How long a block is: as long as the lines of 949 vertices, just below 64 KiB.
pub const BLOCK: usize = 949 * VERTEX_LINE;

/// A block in which a piece of the text of a mesh over a view is made, from its end to its front.
/// Contracts see the view, the piece, and how many bytes have room in front of it.
#[derive(Debug, Drop)]
pub struct PlyBlock {
    places: Box<GridPlaces>,
    texts: PointTexts,
    triples: Triples,
    // The piece stands at its end, from `start` on.
    block: Vec<u8>,
    start: usize,
}

impl Model for PlyBlock {
    ghost use Rattle.std.specs.Prelude.{drop};
    ghost use Rattle.ply_writer.specs.Blocks.{IsBlock, Piece};

    ghost Value = { Piece };

    ghost view = { λ b. record {
      view = b.places.value;
      room = b.start;
      bytes = drop b.start b.block.items;
    } };

    ghost invariant = { λ b. IsBlock b.places.value b.texts b.triples b.block.items b.start };
}

impl PlyBlock {
    /// A block with no piece. AllocError: there is no memory for it, for the texts of the places of
    /// the grid's points, and for those of three digits.
    pub fn new(alloc: Global, view: &View) -> Result<PlyBlock, AllocError>
        ensures view { IfOk result (λ b. b.view ≡ view.now) }
        ensures room { IfOk result (λ b. b.room ≡ BLOCK) }
        ensures none { IfOk result (λ b. b.bytes ≡ []) }
    {
        let places = Box::new(alloc, GridPlaces::new(view))?;
        let texts = PointTexts::new(alloc, view)?;
        let triples = Triples::new(alloc)?;
        let block = vec![in alloc; 0; BLOCK]?;
        Ok(PlyBlock {
            places,
            texts,
            triples,
            block,
            start: BLOCK,
        })
    }

    /// Begins another text, over another view perhaps, in the same memory: the piece is given up.
    /// AllocError: there is no memory for the texts of the places of that view's points, and the block is
    /// as it was.
    pub fn restart(&mut self, alloc: Global, view: &View) -> Result<(), AllocError>
        ensures view { OnOk result (self.new.view ≡ view.now) }
        ensures room { OnOk result (self.new.room ≡ BLOCK) }
        ensures none { OnOk result (self.new.bytes ≡ []) }
        ensures err { OnErr result (self.new ≡ self.old) }
    {
        if !self.places.serves(view) {
            self.take_view(alloc, view)?;
        }
        self.clear();
        Ok(())
    }

    // Makes the places and their texts anew for another view. AllocError: there is no memory for them,
    // and the block is as it was.
    fn take_view(&mut self, alloc: Global, view: &View) -> Result<(), AllocError>
        ensures view { OnOk result (self.new.view ≡ view.now) }
        ensures err { OnErr result (self.new ≡ self.old) }
    {
        self.texts = PointTexts::new(alloc, view)?;
        *self.places = GridPlaces::new(view);
        Ok(())
    }

    /// The piece.
    #[inline]
    pub fn piece(&self) -> &[u8]
        ensures piece { result.now ≡ self.now.bytes }
        ensures few { length result.now + self.now.room ≡ BLOCK }
    {
        &self.block[self.start..]
    }

    /// Gives the piece up.
    #[inline]
    pub fn clear(&mut self)
        ensures view { self.new.view ≡ self.old.view }
        ensures room { self.new.room ≡ BLOCK }
        ensures none { self.new.bytes ≡ [] }
    {
        self.start = BLOCK;
    }

    /// Puts the header of so many vertices and faces before the piece.
    pub fn put_header(&mut self, vertices: u32, faces: u32)
        requires { HEADER ≤ self.old.room }
        ensures view { self.new.view ≡ self.old.view }
        ensures header { self.new.bytes ≡ ply_header vertices faces ++ self.old.bytes }
    {
        self.start = header_before(vertices, faces, &mut self.block, self.start);
    }

    /// Puts the lines of vertices before the piece.
    #[inline]
    pub fn put_vertices(&mut self, vertices: &[Vertex])
        requires placed { All (IsPlaced self.old.view) vertices.now }
        requires room { VERTEX_LINE * length vertices.now ≤ self.old.room }
        ensures view { self.new.view ≡ self.old.view }
        ensures room { self.old.room ≤ self.new.room + VERTEX_LINE * length vertices.now }
        ensures lines { self.new.bytes
            ≡ flat_map (vertex_line self.old.view) vertices.now ++ self.old.bytes }
        ensures more { length self.old.bytes + length vertices.now ≤ length self.new.bytes }
    {
        self.start = vertex_lines(
            &self.places,
            &self.texts,
            vertices,
            &mut self.block,
            self.start,
        );
    }

    /// Puts the lines of faces before the piece.
    #[inline]
    pub fn put_faces(&mut self, faces: &[Face])
        requires { FACE_LINE * length faces.now ≤ self.old.room }
        ensures view { self.new.view ≡ self.old.view }
        ensures room { self.old.room ≤ self.new.room + FACE_LINE * length faces.now }
        ensures lines { self.new.bytes ≡ flat_map face_line faces.now ++ self.old.bytes }
        ensures more { length self.old.bytes + length faces.now ≤ length self.new.bytes }
    {
        self.start = face_lines(&self.triples, faces, &mut self.block, self.start);
    }
}
