// Where the vertices of a mesh lie.
ghost use Rattle.std.specs.Prelude.{◌≡◌, ◌==◌, ◌≤◌, ◌*ℤ◌, pos};
ghost use Rattle.fixed_ops.specs.Raw.{IsRaw, floor_div};
ghost use Rattle.kuhn_cells.specs.Grids.{lower, upper};
ghost use Rattle.tetra_mesh.specs.Places.{IsPlaced, index_along as index_along_of, steps_along, vertex_place};
ghost use Rattle.mesh_laws.specs.Places.{place_between as between_of};

use crate::Vertex;
use kuhn_cells::EdgeKey;
use view_places::{Axis, Lattice, View, raw_place};

/// The raw place of a vertex along an axis: that of the lower point of its edge, or, where the edge
/// leads along the axis, t parts of 65536 further towards the upper point, rounded down.
#[inline]
pub fn vertex_raw(view: &View, v: &Vertex, axis: Axis) -> i64
    requires { IsPlaced view.now v.now }
    ensures place { result ≡ vertex_place view.now v.now axis }
    ensures raw { IsRaw result }
{
    let index = index_along(v.key, axis);
    let low = raw_place(view, Lattice::Grid, axis, index);
    if !leads_along(v.key, axis) {
        return low;
    }
    between(low, raw_place(view, Lattice::Grid, axis, index + 1), v.t)
}

// The index of the lower point of an edge along an axis.
#[inline]
pub(crate) fn index_along(key: EdgeKey, axis: Axis) -> u32
    ensures index { result ≡ index_along_of axis (lower key) }
    ensures small { result ≤ 65535 }
{
    match axis {
        Axis::X => u32::from(key.x),
        Axis::Y => u32::from(key.y),
        Axis::Z => u32::from(key.z),
    }
}

// Whether an edge leads along an axis.
#[inline]
pub(crate) fn leads_along(key: EdgeKey, axis: Axis) -> bool
    ensures { result ≡ (steps_along axis key.dir == 1) }
{
    match axis {
        Axis::X => key.dir % 2 == 1,
        Axis::Y => key.dir / 2 % 2 == 1,
        Axis::Z => key.dir / 4 % 2 == 1,
    }
}

// The number that lies t parts of 65536 from one raw number towards another, rounded down.
#[inline]
pub(crate) fn between(low: i64, high: i64, t: u32) -> i64
    requires low { IsRaw low }
    requires high { IsRaw high }
    requires part { t ≤ 65535 }
    ensures between { result ≡ between_of low high t }
    ensures raw { IsRaw result }
{
    low + parts(high - low, t)
}

// So many parts of 65536 of a way, rounded down.
#[inline]
fn parts(way: i64, t: u32) -> i64
    requires { t ≤ 65535 }
    ensures { result ≡ floor_div (way *ℤ pos t) 65536 }
{
    (i128::from(way) * i128::from(t) >> 16) as i64
}
