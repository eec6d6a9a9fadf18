// Places and boxes with values worked out by hand or by a program in another language.
ghost use Rattle.std.specs.Prelude.{◌≡◌};
ghost use Rattle.view_places.specs.Places.{steps_of};

use fixed_ops::Fx;
use interval_ops::Region;
use kuhn_cells::GridSize;
use std::test::Fail;
use view_places::{Axis, IndexBox, Lattice, View, raw_place, root, sample, span_of, split};

const ONE: i64 = 1 << 32;

const GREATEST: i64 = 4_611_686_018_427_387_903;

// A view with these ends and so many samples along each axis.
fn view_of(low: i64, high: i64, count: u32) -> Option<View> {
    if low < -Fx::MAX_RAW || high > Fx::MAX_RAW || low > high || count == 0 || count > 4096 {
        return None;
    }
    Some(View {
        x0: low,
        x1: high,
        y0: low,
        y1: high,
        z0: low,
        z1: high,
        z: 0,
        w: count,
        h: count,
        d: count.min(1024),
        nx: count.min(512),
        ny: count.min(512),
        nz: count.min(512),
    })
}

// How many steps lie between the first and the last sample of an axis.
fn steps(view: &View, lattice: Lattice, axis: Axis) -> u32
    ensures { result ≡ steps_of view.now lattice axis }
{
    match (lattice, axis) {
        (Lattice::Raster | Lattice::Height, Axis::X) => view.w - 1,
        (Lattice::Raster | Lattice::Height, Axis::Y) => view.h - 1,
        (Lattice::Raster, Axis::Z) => 0,
        (Lattice::Height, Axis::Z) => view.d - 1,
        (Lattice::Grid, Axis::X) => view.nx,
        (Lattice::Grid, Axis::Y) => view.ny,
        (Lattice::Grid, Axis::Z) => view.nz,
    }
}

// The raw place of a sample, where there is such a one.
fn place(low: i64, high: i64, count: u32, lattice: Lattice, axis: Axis, i: u32) -> Option<i64> {
    let view = view_of(low, high, count)?;
    if i > steps(&view, lattice, axis) {
        return None;
    }
    Some(raw_place(&view, lattice, axis, i))
}

#[test]
fn samples_have_their_places(rt: HostRuntime) {
    for (lattice, axis, low, high, count, i, expected) in [
        (Lattice::Raster, Axis::X, -ONE, ONE, 1, 0, -ONE),
        (Lattice::Raster, Axis::Y, -ONE, ONE, 1, 0, ONE),
        (Lattice::Raster, Axis::X, -ONE, ONE, 2, 0, -ONE),
        (Lattice::Raster, Axis::X, -ONE, ONE, 2, 1, ONE),
        (Lattice::Raster, Axis::Y, -ONE, ONE, 2, 0, ONE),
        (Lattice::Raster, Axis::Y, -ONE, ONE, 2, 1, -ONE),
        (Lattice::Raster, Axis::X, -ONE, ONE, 3, 1, 0),
        (Lattice::Raster, Axis::X, -ONE, ONE, 4, 1, -1_431_655_766),
        (Lattice::Raster, Axis::X, -ONE, ONE, 4, 2, 1_431_655_765),
        (Lattice::Raster, Axis::X, -ONE, ONE, 4, 3, ONE),
        (Lattice::Raster, Axis::Y, -ONE, ONE, 4, 1, 1_431_655_766),
        (Lattice::Raster, Axis::Y, -ONE, ONE, 4, 2, -1_431_655_765),
        (Lattice::Raster, Axis::Y, -ONE, ONE, 4, 3, -ONE),
        (
            Lattice::Raster,
            Axis::X,
            -GREATEST,
            GREATEST,
            4096,
            1,
            -4_609_433_668_723_638_263,
        ),
        (
            Lattice::Raster,
            Axis::X,
            -GREATEST,
            GREATEST,
            4096,
            2048,
            1_126_174_851_874_820,
        ),
        (
            Lattice::Raster,
            Axis::X,
            -GREATEST,
            GREATEST,
            4096,
            4094,
            4_609_433_668_723_638_262,
        ),
        (
            Lattice::Raster,
            Axis::X,
            -GREATEST,
            GREATEST,
            4096,
            4095,
            GREATEST,
        ),
        (
            Lattice::Raster,
            Axis::Y,
            -GREATEST,
            GREATEST,
            4096,
            1,
            4_609_433_668_723_638_263,
        ),
        (
            Lattice::Raster,
            Axis::Y,
            -GREATEST,
            GREATEST,
            4096,
            2048,
            -1_126_174_851_874_820,
        ),
        (
            Lattice::Raster,
            Axis::Y,
            -GREATEST,
            GREATEST,
            4096,
            4095,
            -GREATEST,
        ),
        (Lattice::Raster, Axis::X, 5, 5, 4096, 0, 5),
        (Lattice::Raster, Axis::X, 5, 5, 4096, 4095, 5),
        (Lattice::Raster, Axis::Z, -ONE, ONE, 4, 0, 0),
        (Lattice::Height, Axis::X, 0, 10, 4, 1, 3),
        (Lattice::Height, Axis::Y, 0, 10, 4, 1, 7),
        (Lattice::Height, Axis::Z, -7, 0, 4, 0, -7),
        (Lattice::Height, Axis::Z, -7, 0, 4, 1, -5),
        (Lattice::Height, Axis::Z, -7, 0, 4, 2, -3),
        (Lattice::Height, Axis::Z, -7, 0, 4, 3, 0),
        (
            Lattice::Height,
            Axis::Z,
            -GREATEST,
            GREATEST,
            1024,
            512,
            4_508_001_973_047_300,
        ),
        (Lattice::Height, Axis::Z, 3, 4, 1, 0, 3),
        (Lattice::Grid, Axis::X, -ONE, ONE, 3, 0, -ONE),
        (Lattice::Grid, Axis::X, -ONE, ONE, 3, 1, -1_431_655_766),
        (Lattice::Grid, Axis::X, -ONE, ONE, 3, 3, ONE),
        (Lattice::Grid, Axis::Y, -ONE, ONE, 3, 1, -1_431_655_766),
        (Lattice::Grid, Axis::Y, -ONE, ONE, 3, 3, ONE),
        (Lattice::Grid, Axis::Z, -7, 0, 2, 1, -4),
        (Lattice::Grid, Axis::Z, -7, 0, 2, 2, 0),
        (
            Lattice::Grid,
            Axis::Y,
            -GREATEST,
            GREATEST,
            256,
            255,
            4_575_657_221_408_423_935,
        ),
        (
            Lattice::Grid,
            Axis::Y,
            -GREATEST,
            GREATEST,
            256,
            256,
            GREATEST,
        ),
        (Lattice::Grid, Axis::X, 0, 1, 1, 1, 1),
    ] {
        let place = place(low, high, count, lattice, axis, i);
        assert_eq!(rt;
            place,
            Some(expected),
            "sample {i} of {count} along {axis:?} of {lattice:?}"
        );
    }
}

#[test]
fn sample_is_the_number_at_its_place(rt: HostRuntime) -> Result<(), Fail> {
    let view = view_of(-ONE, ONE, 4).ok_or("a view")?;
    assert_eq!(rt; view.w, 4);
    assert_eq!(rt;
        sample(&view, Lattice::Raster, Axis::X, 1),
        Fx::from_raw(-1_431_655_766)
    );
    Ok(())
}

#[test]
fn views_tell_whether_they_fit_a_height_map(rt: HostRuntime) -> Result<(), Fail> {
    for (count, fits) in [(1, true), (1024, true), (1025, false)] {
        let view = view_of(0, ONE, count).ok_or("a view")?;
        assert_eq!(rt; view.fits_height(), fits, "{count}");
    }
    Ok(())
}

// A view whose axes begin at 0 and have these lengths and these numbers of cells.
fn mesh_view(x1: i64, y1: i64, z1: i64, nx: u32, ny: u32, nz: u32) -> Option<View> {
    if x1 < 0 || y1 < 0 || z1 < 0 || x1 > ONE || y1 > ONE || z1 > ONE {
        return None;
    }
    if nx == 0 || ny == 0 || nz == 0 || nx > 512 || ny > 512 || nz > 512 {
        return None;
    }
    Some(View {
        x0: 0,
        x1,
        y0: 0,
        y1,
        z0: 0,
        z1,
        z: 0,
        w: 1,
        h: 1,
        d: 1,
        nx,
        ny,
        nz,
    })
}

#[test]
fn views_tell_whether_they_fit_a_mesh(rt: HostRuntime) -> Result<(), Fail> {
    // As far as 512 cells of 65536 raw units each.
    let room = 512 << 16;
    for (lengths, cells, fits) in [
        ([ONE, ONE, ONE], [512, 512, 64], true),
        ([ONE, ONE, ONE], [64, 512, 512], true),
        ([ONE, ONE, ONE], [512, 64, 512], true),
        ([ONE, ONE, ONE], [256, 256, 256], true),
        // 16777225 cells, the next number that three counts make.
        ([ONE, ONE, ONE], [145, 317, 365], false),
        ([ONE, ONE, ONE], [365, 145, 317], false),
        ([ONE, ONE, ONE], [512, 512, 512], false),
        // Each axis has its own room.
        ([room, ONE, ONE], [512, 1, 1], true),
        ([ONE, room, ONE], [1, 512, 1], true),
        ([ONE, ONE, room], [1, 1, 512], true),
        ([room - 1, ONE, ONE], [512, 1, 1], false),
        ([ONE, room - 1, ONE], [1, 512, 1], false),
        ([ONE, ONE, room - 1], [1, 1, 512], false),
        ([room - 1, room - 1, room - 1], [511, 511, 64], true),
    ] {
        let ([x1, y1, z1], [nx, ny, nz]) = (lengths, cells);
        let view = mesh_view(x1, y1, z1, nx, ny, nz).ok_or("a view")?;
        assert_eq!(rt; view.fits_mesh(), fits, "{lengths:?} {cells:?}");
    }
    Ok(())
}

// The raw place of point 1 of a view's grid along an axis.
fn first_step(view: &View, axis: Axis) -> Option<i64> {
    if steps(view, Lattice::Grid, axis) == 0 {
        return None;
    }
    Some(raw_place(view, Lattice::Grid, axis, 1))
}

#[test]
fn each_axis_of_a_mesh_has_its_own_cells(rt: HostRuntime) -> Result<(), Fail> {
    let view = mesh_view(ONE, ONE, ONE, 2, 3, 4).ok_or("a view")?;
    assert_eq!(rt; view.grid(), GridSize { x: 2, y: 3, z: 4 });
    let cells = root(&view, Lattice::Grid);
    assert_eq!(rt; (cells.x0, cells.y0, cells.z0), (0, 0, 0));
    assert_eq!(rt; (cells.x1, cells.y1, cells.z1), (2, 3, 4));
    // The first point behind the lower end of each axis.
    for (axis, expected) in [(Axis::X, ONE / 2), (Axis::Y, ONE / 3), (Axis::Z, ONE / 4)] {
        assert_eq!(rt; first_step(&view, axis), Some(expected), "{axis:?}");
    }
    Ok(())
}

#[test]
fn boxes_are_halved_by_z_then_y_then_x(rt: HostRuntime) {
    let whole = IndexBox {
        x0: 0,
        x1: 9,
        y0: 3,
        y1: 20,
        z0: 1,
        z1: 11,
    };
    let halves = split(whole, 8);
    let of = |x0: u32, x1: u32, y0: u32, y1: u32, z0: u32, z1: u32| (x0, x1, y0, y1, z0, z1);
    assert_eq!(rt; halves.len(), 8);
    for (half, expected) in halves.iter().zip([
        of(0, 5, 3, 12, 1, 6),
        of(5, 9, 3, 12, 1, 6),
        of(0, 5, 12, 20, 1, 6),
        of(5, 9, 12, 20, 1, 6),
        of(0, 5, 3, 12, 6, 11),
        of(5, 9, 3, 12, 6, 11),
        of(0, 5, 12, 20, 6, 11),
        of(5, 9, 12, 20, 6, 11),
    ]) {
        assert_eq!(rt;
            (half.x0, half.x1, half.y0, half.y1, half.z0, half.z1),
            expected
        );
    }
    let leaf = IndexBox {
        x0: 0,
        x1: 8,
        y0: 0,
        y1: 8,
        z0: 0,
        z1: 1,
    };
    assert_eq!(rt; split(leaf, 8).as_slice(), [leaf].as_slice());
    assert_eq!(rt;
        split(IndexBox::default(), 1).as_slice(),
        [IndexBox::default()].as_slice()
    );
}

// The span of a box, where it lies in the root box.
fn spanned(view: &View, lattice: Lattice, b: IndexBox) -> Option<Region> {
    match lattice {
        Lattice::Raster if b.x1 <= view.w && b.y1 <= view.h && b.z1 <= 1 => {
            Some(span_of(view, Lattice::Raster, b))
        }
        Lattice::Height if b.x1 <= view.w && b.y1 <= view.h && b.z1 <= view.d => {
            Some(span_of(view, Lattice::Height, b))
        }
        Lattice::Grid if b.x1 <= view.nx && b.y1 <= view.ny && b.z1 <= view.nz => {
            Some(span_of(view, Lattice::Grid, b))
        }
        _ => None,
    }
}

// The ends of the span of a box along x and y, in a view from -1 to 1.
fn ends(lattice: Lattice, count: u32, b: IndexBox) -> Option<[Fx; 4]> {
    let view = view_of(-ONE, ONE, count)?;
    let region = spanned(&view, lattice, b)?;
    Some([region.x.lo(), region.x.hi(), region.y.lo(), region.y.hi()])
}

#[test]
fn boxes_span_the_places_of_their_samples(rt: HostRuntime) {
    let b = IndexBox {
        x0: 0,
        x1: 2,
        y0: 0,
        y1: 2,
        z0: 0,
        z1: 1,
    };
    let low = Fx::from_raw(-ONE);
    let high = Fx::from_raw(ONE);
    let column = Fx::from_raw(-1_431_655_766);
    let row = Fx::from_raw(1_431_655_766);
    let middle = Fx::from_raw(0);
    for (lattice, expected) in [
        (Lattice::Raster, [low, column, row, high]),
        (Lattice::Height, [low, column, row, high]),
        (Lattice::Grid, [low, middle, low, middle]),
    ] {
        assert_eq!(rt; ends(lattice, 4, b), Some(expected), "{lattice:?}");
    }
}
