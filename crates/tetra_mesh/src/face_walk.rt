// The faces of a grid, made one cell after another.
ghost use Rattle.std.specs.Prelude.{◌≡◌, ◌*◌, ◌+◌, ◌<◌, ◌≤◌, ◌++◌, [], IfOk, drop, flat_map, length};
ghost use Rattle.tetra_mesh.specs.Numbering.{HasReached, IsNumbered, all_faces, vertices_on};
ghost use Rattle.tetra_mesh.specs.Shapes.{AreShapes};
ghost use Rattle.tetra_mesh.specs.Sides.{HaveCells, OfCells};

use crate::Face;
use crate::counts::{count_faces, count_vertices};
use crate::faces::{FACES, push_faces};
use crate::numbering::Numbering;
use crate::shape_room::ShapeRoom;
use crate::shapes::Shapes;
use crate::sided_cell::SidedCell;
use arrayvec::ArrayVec;
use kuhn_cells::GridSize;
use std::alloc::{AllocError, Global};
use std::marker::Model;

// The most faces that a cell has.
const MOST: usize = 12;

/// The mixed cells of a grid by their places and sides, whose faces are made one cell after another.
/// Contracts see how many cells the grid has along each axis, its mixed cells, and of how many of
/// these the faces are made.
#[derive(Debug, Drop)]
pub struct FaceWalk {
    sided: Vec<SidedCell>,
    made: usize,
    numbering: Numbering,
    shapes: Shapes,
}

impl Model for FaceWalk {
    ghost use Rattle.tetra_mesh.specs.Walks.{CanGoOn, Walk};

    ghost Value = { Walk };

    ghost view = { λ w. record { n = w.numbering.n; sided = w.sided.items; made = w.made } };

    ghost invariant = { λ w. CanGoOn w.numbering w.shapes w.sided.items w.made };
}

impl FaceWalk {
    /// The mixed cells of a grid of so many cells along each axis. No face is made. AllocError:
    /// there is no memory for the numbers of the vertices.
    pub fn new(alloc: Global, n: GridSize, sided: Vec<SidedCell>) -> Result<FaceWalk, AllocError>
        requires { HaveCells n sided.items }
        ensures { IfOk result (λ walk. walk ≡ record { n = n; sided = sided.items; made = 0 }) }
    {
        FaceWalk::over(alloc, n, sided, ShapeRoom::new(alloc)?)
    }

    /// The same with shapes that are made already. AllocError: there is no memory for the numbers of
    /// the vertices or for other shapes, and all shapes are given up.
    pub fn over(
        alloc: Global,
        n: GridSize,
        sided: Vec<SidedCell>,
        room: ShapeRoom,
    ) -> Result<FaceWalk, AllocError>
        requires { HaveCells n sided.items }
        ensures { IfOk result (λ walk. walk ≡ record { n = n; sided = sided.items; made = 0 }) }
    {
        let numbering = Numbering::new(alloc, n)?;
        let shapes = room.shapes.with(alloc, &sided)?;
        Ok(FaceWalk {
            sided,
            made: 0,
            numbering,
            shapes,
        })
    }

    /// The shapes that are made by then, for other grids.
    pub fn into_room(self) -> ShapeRoom {
        ShapeRoom {
            shapes: self.shapes,
        }
    }

    /// The mixed cells.
    #[inline]
    pub fn cells(&self) -> &[SidedCell]
        ensures { result.now ≡ self.now.sided }
    {
        &self.sided
    }

    // Of how many cells the faces are made.
    #[inline]
    pub(crate) fn made(&self) -> usize
        ensures { result ≡ self.now.made }
    {
        self.made
    }

    /// How many vertices all cells have.
    pub fn vertex_count(&self) -> usize
        ensures exact { OfCells self.now.n self.now.sided
            (λ cells. result ≡ length (flat_map vertices_on cells)) }
        ensures few { result ≤ 8 * 16777216 }
    {
        count_vertices(&self.sided)
    }

    /// How many faces all cells have.
    pub fn face_count(&self) -> usize
        ensures exact { OfCells self.now.n self.now.sided
            (λ cells. result ≡ length (all_faces cells cells)) }
        ensures few { result ≤ 12 * 16777216 }
    {
        count_faces(&self.sided, &self.shapes)
    }

    /// Makes the faces of the next cells, as long as there is room for those of one more.
    pub fn fill(&mut self, faces: &mut ArrayVec<Face, FACES>)
        requires { faces.old.items ≡ [] }
        ensures n { self.new.n ≡ self.old.n }
        ensures sided { self.new.sided ≡ self.old.sided }
        ensures faces { OfCells self.old.n self.old.sided
            (λ cells. all_faces cells (drop self.old.made cells)
            ≡ faces.new.items ++ all_faces cells (drop self.new.made cells)) }
        ensures more { self.old.made < length self.old.sided → self.old.made < self.new.made }
        ensures full { self.new.made < length self.old.sided → 0 < length faces.new.items }
    {
        self.made = push_some(
            &self.sided,
            self.made,
            &mut self.numbering,
            &self.shapes,
            faces,
        );
    }
}

// Makes the faces of the next cells behind the first ones, as long as there is room for those of one
// more, and says how many cells come before the others then.
fn push_some(
    sided: &[SidedCell],
    made: usize,
    numbering: &mut Numbering,
    shapes: &Shapes,
    faces: &mut ArrayVec<Face, FACES>,
) -> usize
    requires cells { HaveCells numbering.old.n sided.now }
    requires within { made ≤ length sided.now }
    requires numbered { OfCells numbering.old.n sided.now
        (λ cells. IsNumbered cells numbering.old.n numbering.old) }
    requires reached { OfCells numbering.old.n sided.now
        (λ cells. HasReached cells numbering.old.ahead made) }
    requires shapes { AreShapes sided.now shapes.now }
    requires none { faces.old.items ≡ [] }
    ensures width { numbering.new.n ≡ numbering.old.n }
    ensures within { result ≤ length sided.now }
    ensures numbered { OfCells numbering.old.n sided.now
        (λ cells. IsNumbered cells numbering.old.n numbering.new) }
    ensures reached { OfCells numbering.old.n sided.now
        (λ cells. HasReached cells numbering.new.ahead result) }
    ensures faces { OfCells numbering.old.n sided.now
        (λ cells. all_faces cells (drop made cells)
        ≡ faces.new.items ++ all_faces cells (drop result cells)) }
    ensures more { made < length sided.now → made < result }
    ensures full { result < length sided.now → 0 < length faces.new.items }
{
    let mut at = made;
    while at < sided.len() && faces.len() + MOST <= FACES {
        let cell = &sided[at];
        numbering.reach(sided, cell.z);
        push_faces(numbering.n, &numbering.slots, shapes, cell, faces);
        at += 1;
    }
    at
}
