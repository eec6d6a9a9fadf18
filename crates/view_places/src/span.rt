// Which places the samples of a box have.
ghost use Rattle.std.specs.Prelude.{◌≡◌, ◌<◌, ◌≤◌};
ghost use Rattle.view_places.specs.Places.{steps_of};
ghost use Rattle.view_places.specs.Spans.{IsInRoot, last_of, range_along, region_of};

use crate::{Axis, IndexBox, Lattice, View, sample};
use fixed_ops::le;
use interval_ops::{Region, Span};

/// The least and the greatest place of the samples of a box, along each axis. A box of a grid is a
/// box of cells, so the corners at its upper ends are among its samples.
pub fn span_of(view: &View, lattice: Lattice, b: IndexBox) -> Region
    requires { IsInRoot view.now lattice b }
    ensures { result ≡ region_of view.now lattice b }
{
    Region {
        x: span_along(view, lattice, Axis::X, b.x0, b.x1),
        y: span_along(view, lattice, Axis::Y, b.y0, b.y1),
        z: span_along(view, lattice, Axis::Z, b.z0, b.z1),
    }
}

// The least and the greatest place along an axis.
#[inline]
fn span_along(view: &View, lattice: Lattice, axis: Axis, low: u32, high: u32) -> Span
    requires some { low < high }
    requires within { last_of lattice high ≤ steps_of view.now lattice axis }
    ensures { result ≡ range_along view.now lattice axis low high }
{
    let last = match lattice {
        Lattice::Grid => high,
        Lattice::Raster | Lattice::Height => high - 1,
    };
    let front = sample(view, lattice, axis, low);
    let back = sample(view, lattice, axis, last);
    if le(front, back) {
        Span::new(front, back)
    } else {
        Span::new(back, front)
    }
}
