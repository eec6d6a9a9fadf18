// The faces of mixed cells, by the numbers of their vertices.
ghost use Rattle.std.specs.Prelude.{◌≡◌, ℕ, ◌+◌, ◌*◌, ◌≤◌, ◌<◌, ◌++◌, All, get_or, length, map};
ghost use Rattle.arrayvec.specs.ArrayVec.{array_vec_len};
ghost use Rattle.kuhn_cells.specs.Laws.{OfEdges};
ghost use Rattle.tetra_mesh.specs.Edges.{AreAmong, face_by, no_edge};
ghost use Rattle.tetra_mesh.specs.Numbering.{AreSlots, IsKept, face_in, number_in};
ghost use Rattle.tetra_mesh.specs.Ranks.{AreRanks};
ghost use Rattle.tetra_mesh.specs.Shapes.{AreMade, IsMade, moved, sided_triangles};

use crate::Face;
use crate::entry::Entry;
use crate::numbering::slot;
use crate::shape::{Corners, EDGES};
use crate::shapes::Shapes;
use crate::sided_cell::SidedCell;
use arrayvec::ArrayVec;
use kuhn_cells::{EdgeKey, GridSize};

/// How many faces are made at once, at most.
pub const FACES: usize = 1870;

// The faces of a cell.
#[inline]
pub(crate) fn push_faces(
    n: GridSize,
    slots: &[Entry],
    shapes: &Shapes,
    cell: &SidedCell,
    faces: &mut ArrayVec<Face, FACES>,
)
    requires slots { AreSlots n slots.now }
    requires room { array_vec_len faces.old + 12 ≤ FACES }
    requires shapes { AreMade shapes.now }
    requires made { IsMade shapes.now cell.now.signs }
    requires kept { All (OfEdges (IsKept n)) (sided_triangles cell.now) }
    ensures { faces.new.items ≡ faces.old.items ++ map (face_in n slots.now)
        (sided_triangles cell.now) }
{
    let shape = shapes.shape(cell.signs);
    let mut numbers = [0; EDGES];
    find_numbers(
        n,
        slots,
        &shapes.ranks,
        cell,
        shape.edges.as_slice(),
        &mut numbers,
    );
    push_triangles(&numbers, shape.triangles.as_slice(), faces);
}

// Finds the numbers of the vertices on edges of the cell at the origin, in another cell.
#[inline]
fn find_numbers(
    n: GridSize,
    slots: &[Entry],
    ranks: &[u8],
    cell: &SidedCell,
    edges: &[EdgeKey],
    numbers: &mut [u32],
)
    requires few { length edges.now ≤ EDGES }
    requires room { length numbers.old ≡ EDGES }
    requires slots { AreSlots n slots.now }
    requires ranks { AreRanks ranks.now }
    requires kept { All (λ e. IsKept n (moved cell.now e)) edges.now }
    ensures { (i : ℕ) → i < length edges.now → get_or numbers.new i 0
        ≡ number_in n slots.now (moved cell.now (get_or edges.now i no_edge)) }
{
    for i in 0..edges.len() {
        numbers[i] = number(n, slots, ranks, cell, edges[i]);
    }
}

// The faces of triangles, by the numbers of the vertices on their edges.
#[inline]
fn push_triangles(numbers: &[u32], triangles: &[Corners], faces: &mut ArrayVec<Face, FACES>)
    requires room { array_vec_len faces.old + length triangles.now ≤ FACES }
    requires among { All (AreAmong (length numbers.now)) triangles.now }
    ensures { faces.new.items ≡ faces.old.items ++ map (face_by numbers.now) triangles.now }
{
    for triangle in triangles {
        faces.push(Face {
            a: numbers[usize::from(triangle.a)],
            b: numbers[usize::from(triangle.b)],
            c: numbers[usize::from(triangle.c)],
        });
    }
}

// The number of the vertex on an edge of the cell at the origin, in another cell.
#[inline]
fn number(n: GridSize, slots: &[Entry], ranks: &[u8], cell: &SidedCell, edge: EdgeKey) -> u32
    requires slots { AreSlots n slots.now }
    requires ranks { AreRanks ranks.now }
    requires kept { IsKept n (moved cell.now edge) }
    ensures { result ≡ number_in n slots.now (moved cell.now edge) }
{
    let slot = slot(n, cell.x + edge.x, cell.y + edge.y, cell.z + edge.z);
    slots[slot].number(ranks, edge.dir)
}
