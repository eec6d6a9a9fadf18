// Where samples lie.
ghost use Rattle.std.specs.Prelude.{◌≡◌, ◌<◌, ◌≤◌};
ghost use Rattle.fixed_ops.specs.Raw.{IsRaw};
ghost use Rattle.view_places.specs.Places.{sample_place, samples_along as samples_along_of, steps_of};
ghost use Rattle.view_places.specs.Spans.{root_box_of};
ghost use Rattle.view_places.specs.Window.{AreEnds};

use crate::{Axis, AxisSamples, Course, IndexBox, Lattice, View};
use fixed_ops::Fx;

/// The samples along an axis of a lattice over a view. The rows of rasters and of height maps lie
/// from the top on down, a raster lies at one height, and all else rises.
pub fn samples_along(view: &View, lattice: Lattice, axis: Axis) -> AxisSamples
    ensures samples { result ≡ samples_along_of view.now lattice axis }
    ensures ends { AreEnds result.low result.high }
    ensures few { result.steps ≤ 4095 }
{
    let (low, high) = match axis {
        Axis::X => (view.x0, view.x1),
        Axis::Y => (view.y0, view.y1),
        Axis::Z => (view.z0, view.z1),
    };
    let (steps, course) = match (lattice, axis) {
        (Lattice::Raster | Lattice::Height, Axis::X) => (view.w - 1, Course::Rising),
        (Lattice::Raster | Lattice::Height, Axis::Y) => (view.h - 1, Course::Falling),
        (Lattice::Raster, Axis::Z) => {
            return AxisSamples {
                low: view.z,
                high: view.z,
                steps: 0,
                course: Course::Level,
            };
        }
        (Lattice::Height, Axis::Z) => (view.d - 1, Course::Rising),
        (Lattice::Grid, Axis::X) => (view.nx, Course::Rising),
        (Lattice::Grid, Axis::Y) => (view.ny, Course::Rising),
        (Lattice::Grid, Axis::Z) => (view.nz, Course::Rising),
    };
    AxisSamples {
        low,
        high,
        steps,
        course,
    }
}

/// The box of all samples of a lattice over a view; of a grid, the box of all its cells.
pub fn root(view: &View, lattice: Lattice) -> IndexBox
    ensures { result ≡ root_box_of view.now lattice }
{
    let (x1, y1, z1) = match lattice {
        Lattice::Raster => (view.w, view.h, 1),
        Lattice::Height => (view.w, view.h, view.d),
        Lattice::Grid => (view.nx, view.ny, view.nz),
    };
    IndexBox {
        x0: 0,
        x1,
        y0: 0,
        y1,
        z0: 0,
        z1,
    }
}

/// The raw place of sample i along an axis.
#[inline]
pub fn raw_place(view: &View, lattice: Lattice, axis: Axis, i: u32) -> i64
    requires { i ≤ steps_of view.now lattice axis }
    ensures place { result ≡ sample_place view.now lattice axis i }
    ensures raw { IsRaw result }
{
    samples_along(view, lattice, axis).place(i)
}

/// The place of sample i along an axis.
#[inline]
pub fn sample(view: &View, lattice: Lattice, axis: Axis, i: u32) -> Fx
    requires { i ≤ steps_of view.now lattice axis }
    ensures { result ≡ sample_place view.now lattice axis i }
{
    samples_along(view, lattice, axis).sample(i)
}
