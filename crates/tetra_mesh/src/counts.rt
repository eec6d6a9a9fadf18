// How many vertices and faces cells have.
ghost use Rattle.std.specs.Prelude.{◌≡◌, ◌*◌, ◌≤◌, List, flat_map, length, map};
ghost use Rattle.kuhn_cells.specs.Cells.{triangles_of_cell};
ghost use Rattle.kuhn_cells.specs.declared.cell_list.CellValues.{CellValues};
ghost use Rattle.tetra_mesh.specs.Numbering.{vertices_on};
ghost use Rattle.tetra_mesh.specs.Shapes.{AreShapes};
ghost use Rattle.tetra_mesh.specs.Sides.{sided_of};

use crate::shapes::Shapes;
use crate::sided_cell::SidedCell;

// How many vertices cells have.
pub(crate) fn count_vertices(sided: &[SidedCell]) -> usize
    requires { length sided.now ≤ 16777216 }
    ensures exact { (cells : List CellValues) → sided.now ≡ map sided_of cells → result
        ≡ length (flat_map vertices_on cells) }
    ensures few { result ≤ 8 * length sided.now }
{
    let mut count = 0;
    for cell in sided {
        count += cell.vertices();
    }
    count
}

// How many faces cells have.
pub(crate) fn count_faces(sided: &[SidedCell], shapes: &Shapes) -> usize
    requires few { length sided.now ≤ 16777216 }
    requires shapes { AreShapes sided.now shapes.now }
    ensures exact { (cells : List CellValues) → sided.now ≡ map sided_of cells → result
        ≡ length (flat_map triangles_of_cell cells) }
    ensures few { result ≤ 12 * length sided.now }
{
    let mut count = 0;
    for cell in sided {
        count += shapes.shape(cell.signs).triangles.len();
    }
    count
}
