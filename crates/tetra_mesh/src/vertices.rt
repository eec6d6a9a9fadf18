// The vertices of mixed cells.
ghost use Rattle.std.specs.Prelude.{◌≡◌, ◌+◌, ◌≤◌, ◌++◌, IfOk, OnOk, flat_map};
ghost use Rattle.arrayvec.specs.ArrayVec.{array_vec_len};
ghost use Rattle.tetra_mesh.specs.Numbering.{vertices_on};

use crate::Vertex;
use crate::sides::way_up;
use arrayvec::ArrayVec;
use fixed_ops::is_inside;
use kuhn_cells::{CellValues, EdgeKey};
use std::alloc::{AllocError, Global};

// The vertices of cells, cell by cell. There are so many. AllocError: there is no memory for them.
pub(crate) fn vertices_of(
    alloc: Global,
    cells: &[CellValues],
    count: usize,
) -> Result<Vec<Vertex>, AllocError>
    ensures { IfOk result (λ vertices. vertices.items ≡ flat_map vertices_on cells.now) }
{
    let mut vertices = Vec::with_capacity(alloc, count)?;
    for cell in cells {
        vertices.extend_from_slice(cell_vertices(cell).as_slice())?;
    }
    Ok(vertices)
}

/// The vertices on the edges from the lowest corner of a cell.
#[inline]
pub fn cell_vertices(cell: &CellValues) -> ArrayVec<Vertex, 7>
    ensures { result.items ≡ vertices_on cell.now }
{
    let mut vertices = ArrayVec::new();
    let low = cell.values[0];
    for dir in 1..8u8 {
        let high = cell.values[usize::from(dir)];
        if is_inside(high) != is_inside(low) {
            vertices.push(Vertex {
                key: EdgeKey {
                    z: cell.z,
                    y: cell.y,
                    x: cell.x,
                    dir,
                },
                t: way_up(low, high),
            });
        }
    }
    vertices
}
