// Whole meshes.
ghost use Rattle.std.specs.Prelude.{◌≡◌, ◌≤◌, ◌++◌, IfOk, OnOk, flat_map, length, map};
ghost use Rattle.kuhn_cells.specs.Grids.{Grid};
ghost use Rattle.kuhn_cells.specs.Lists.{ListsCells};
ghost use Rattle.tetra_mesh.specs.Cuts.{mesh_of};
ghost use Rattle.tetra_mesh.specs.Numbering.{all_faces, vertices_on};
ghost use Rattle.tetra_mesh.specs.Sides.{HasParts, HaveCells, OfCells, sided_of};
ghost use Rattle.tetra_mesh.specs.Sound.{IsSound, LieApart};
ghost use Rattle.view_places.specs.Window.{FitsMesh, size_of};

use crate::counts::count_vertices;
use crate::face_walk::FaceWalk;
use crate::sided_cell::SidedCell;
use crate::vertices::vertices_of;
use crate::{Face, Mesh, Vertex};
use arrayvec::ArrayVec;
use kuhn_cells::{CellList, CellValues, GridSize};
use std::alloc::{AllocError, Global};
use view_places::View;

/// The mesh of a grid of the view's size whose outermost layer is outside, from the list of its
/// mixed cells. It is closed, a manifold and separating, and its vertices lie apart: on the lattice,
/// as raw places and as lines. AllocError: there is no memory for it.
pub fn build(alloc: Global, cells: &CellList, view: &View) -> Result<Mesh, AllocError>
    requires fits { FitsMesh view.now }
    requires cells { (g : Grid) × ListsCells (size_of view.now) cells.now g }
    ensures mesh { (g : Grid) → ListsCells (size_of view.now) cells.now g → IfOk result
        (λ mesh. mesh ≡ mesh_of g) }
    ensures sound { (g : Grid) → ListsCells (size_of view.now) cells.now g → IfOk result (IsSound g) }
    ensures apart { IfOk result (λ mesh. LieApart view.now mesh.vertices) }
{
    let (vertices, sided) = parts(alloc, &cells.cells)?;
    mesh_of_parts(alloc, vertices, sided, view)
}

/// The mesh that `build` gives. The list of cells is given up before the faces are made.
pub fn build_from(alloc: Global, cells: CellList, view: &View) -> Result<Mesh, AllocError>
    requires fits { FitsMesh view.now }
    requires cells { (g : Grid) × ListsCells (size_of view.now) cells g }
    ensures mesh { (g : Grid) → ListsCells (size_of view.now) cells g → IfOk result
        (λ mesh. mesh ≡ mesh_of g) }
    ensures sound { (g : Grid) → ListsCells (size_of view.now) cells g → IfOk result (IsSound g) }
    ensures apart { IfOk result (λ mesh. LieApart view.now mesh.vertices) }
{
    let (vertices, sided) = parts_of(alloc, cells)?;
    mesh_of_parts(alloc, vertices, sided, view)
}

// The vertices of the cells of a list that is given up, and the places and sides of the cells.
// AllocError: there is no memory for them.
fn parts_of(alloc: Global, cells: CellList) -> Result<(Vec<Vertex>, Vec<SidedCell>), AllocError>
    requires { length cells.cells.items ≤ 16777216 }
    ensures vertices { IfOk result
        (λ parts. parts.0.items ≡ flat_map vertices_on cells.cells.items) }
    ensures sides { IfOk result (λ parts. parts.1.items ≡ map sided_of cells.cells.items) }
{
    parts(alloc, &cells.cells)
}

// The vertices of cells, and the places and sides of the cells. AllocError: there is no memory for
// them.
fn parts(alloc: Global, cells: &[CellValues]) -> Result<(Vec<Vertex>, Vec<SidedCell>), AllocError>
    requires { length cells.now ≤ 16777216 }
    ensures vertices { IfOk result (λ parts. parts.0.items ≡ flat_map vertices_on cells.now) }
    ensures sides { IfOk result (λ parts. parts.1.items ≡ map sided_of cells.now) }
{
    let sided = sided_cells(alloc, cells)?;
    let vertices = vertices_of(alloc, cells, count_vertices(&sided))?;
    Ok((vertices, sided))
}

// The places and sides of cells. AllocError: there is no memory for them.
fn sided_cells(alloc: Global, cells: &[CellValues]) -> Result<Vec<SidedCell>, AllocError>
    ensures { IfOk result (λ sided. sided.items ≡ map sided_of cells.now) }
{
    let mut sided = Vec::with_capacity(alloc, cells.len())?;
    for cell in cells {
        sided.push(SidedCell::new(cell))?;
    }
    Ok(sided)
}

// The mesh of a grid of the view's size, from the vertices of its mixed cells and from the places
// and sides of these cells. AllocError: there is no memory for it.
fn mesh_of_parts(
    alloc: Global,
    vertices: Vec<Vertex>,
    sided: Vec<SidedCell>,
    view: &View,
) -> Result<Mesh, AllocError>
    requires fits { FitsMesh view.now }
    requires parts { (g : Grid) × HasParts (size_of view.now) g vertices.items sided.items }
    ensures mesh { (g : Grid) → HasParts (size_of view.now) g vertices.items sided.items
        → IfOk result (λ mesh. mesh ≡ mesh_of g) }
    ensures sound { (g : Grid) → HasParts (size_of view.now) g vertices.items sided.items
        → IfOk result (IsSound g) }
    ensures apart { IfOk result (λ mesh. LieApart view.now mesh.vertices) }
{
    let faces = faces_of(alloc, sided, view.grid())?;
    Ok(Mesh { vertices, faces })
}

// The faces of mixed cells of a grid of so many cells along each axis, by their places and sides
// alone. AllocError: there is no memory for them.
fn faces_of(alloc: Global, sided: Vec<SidedCell>, n: GridSize) -> Result<Vec<Face>, AllocError>
    requires { HaveCells n sided.items }
    ensures { OfCells n sided.items
        (λ cells. IfOk result (λ faces. faces.items ≡ all_faces cells cells)) }
{
    let mut walk = FaceWalk::new(alloc, n, sided)?;
    let mut faces = Vec::with_capacity(alloc, walk.face_count())?;
    push_all_faces(&mut walk, &mut faces)?;
    Ok(faces)
}

// The faces of all cells. AllocError: there is no memory for them.
fn push_all_faces(walk: &mut FaceWalk, faces: &mut Vec<Face>) -> Result<(), AllocError>
    requires { walk.old.made ≡ 0 }
    ensures { OfCells walk.old.n walk.old.sided
        (λ cells. OnOk result (faces.new.items ≡ faces.old.items ++ all_faces cells cells)) }
{
    while walk.made() < walk.cells().len() {
        let mut batch = ArrayVec::new();
        walk.fill(&mut batch);
        faces.extend_from_slice(batch.as_slice())?;
    }
    Ok(())
}
