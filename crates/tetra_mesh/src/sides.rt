// On which side of the surface the corners of a cell lie.
ghost use Rattle.std.specs.Prelude.{◌≡◌, ◌≤◌, true};
ghost use Rattle.fixed_ops.specs.Raw.{is_inside as is_inside_of};
ghost use Rattle.kuhn_cells.specs.Arrangement.{differ};
ghost use Rattle.mesh_laws.specs.Places.{way_up as way_up_of};
ghost use Rattle.tetra_mesh.specs.Numbering.{signs_of as signs_of_cell};

use fixed_ops::{Fx, cut, is_inside};
use kuhn_cells::CellValues;

// Bit k is 1 where corner k is inside.
#[inline]
pub(crate) fn signs_of(cell: &CellValues) -> u8
    ensures { result ≡ signs_of_cell cell.now }
{
    let values = &cell.values;
    u8::from(is_inside(values[0]))
        + 2 * u8::from(is_inside(values[1]))
        + 4 * u8::from(is_inside(values[2]))
        + 8 * u8::from(is_inside(values[3]))
        + 16 * u8::from(is_inside(values[4]))
        + 32 * u8::from(is_inside(values[5]))
        + 64 * u8::from(is_inside(values[6]))
        + 128 * u8::from(is_inside(values[7]))
}

// How far from its lower point an edge is cut, by the values of the lower and the upper point.
#[inline]
pub(crate) fn way_up(low: Fx, high: Fx) -> u32
    requires { differ (is_inside_of low) (is_inside_of high) ≡ true }
    ensures value { result ≡ way_up_of low high }
    ensures least { 1 ≤ result }
    ensures most { result ≤ 65535 }
{
    if is_inside(low) {
        cut(low, high)
    } else {
        65536 - cut(high, low)
    }
}
