// Places worked out by a program in another language.
ghost use Rattle.std.specs.Prelude.{IsTrue};
ghost use Rattle.tetra_mesh.specs.Places.{IsPlaced};

use fixed_ops::Fx;
use kuhn_cells::EdgeKey;
use tetra_mesh::{GridPlaces, Vertex, vertex_raw};
use view_places::{Axis, View};

const ONE: i64 = 1 << 32;

const GREATEST: i64 = 4_611_686_018_427_387_903;

// A view with these ends along each axis and so many cells.
fn view_of(low: i64, high: i64, n: u32) -> Option<View> {
    if low < -Fx::MAX_RAW || high > Fx::MAX_RAW || low > high || n == 0 || n > 512 {
        return None;
    }
    Some(View {
        x0: low,
        x1: high,
        y0: low,
        y1: high,
        z0: low,
        z1: high,
        z: 0,
        w: 1,
        h: 1,
        d: 1,
        nx: n,
        ny: n,
        nz: n,
    })
}

// Whether a vertex lies in the grid of a view.
fn is_placed(view: &View, v: &Vertex) -> bool
    ensures { IsTrue result → IsPlaced view.now v.now }
{
    let key = v.key;
    1 <= key.dir
        && key.dir <= 7
        && u32::from(key.x) + u32::from(key.dir % 2) <= view.nx
        && u32::from(key.y) + u32::from(key.dir / 2 % 2) <= view.ny
        && u32::from(key.z) + u32::from(key.dir / 4 % 2) <= view.nz
        && 1 <= v.t
        && v.t <= 65535
}

// The raw place of a vertex of a cubic view, by the view and by the table of its places, where the
// vertex lies in the grid.
fn places(low: i64, high: i64, n: u32, v: &Vertex, axis: Axis) -> Option<(i64, i64)> {
    let view = view_of(low, high, n)?;
    if !is_placed(&view, v) {
        return None;
    }
    let table = GridPlaces::new(&view);
    Some((vertex_raw(&view, v, axis), table.raw(v, axis)))
}

// The vertex of an edge from a point with this index along each axis.
fn vertex(index: u16, dir: u8, t: u32) -> Vertex {
    let key = EdgeKey {
        z: index,
        y: index,
        x: index,
        dir,
    };
    Vertex { key, t }
}

#[test]
fn vertices_have_their_places(rt: HostRuntime) {
    for (low, high, n, v, axis, expected) in [
        (-ONE, ONE, 2, vertex(0, 7, 60075), Axis::X, -357_892_096),
        (-ONE, ONE, 2, vertex(1, 6, 5461), Axis::Z, 357_892_096),
        (-ONE, ONE, 2, vertex(1, 6, 5461), Axis::X, 0),
        (-7, 100_000, 1, vertex(0, 2, 3), Axis::Y, -3),
        (-200_000, -65_536, 2, vertex(1, 2, 65535), Axis::Y, -65_538),
        (5, 5, 3, vertex(2, 7, 40000), Axis::Z, 5),
        (
            -GREATEST,
            GREATEST,
            1,
            vertex(0, 1, 65535),
            Axis::X,
            4_611_545_280_939_032_575,
        ),
        (
            -GREATEST,
            GREATEST,
            1,
            vertex(0, 4, 1),
            Axis::Z,
            -4_611_545_280_939_032_576,
        ),
        (
            -GREATEST,
            GREATEST,
            256,
            vertex(255, 7, 65535),
            Axis::Y,
            4_611_685_468_671_574_015,
        ),
        (
            -GREATEST,
            GREATEST,
            256,
            vertex(128, 1, 32768),
            Axis::X,
            18_014_398_509_481_983,
        ),
    ] {
        assert_eq!(rt; places(low, high, n, &v, axis), Some((expected, expected)));
    }
}
