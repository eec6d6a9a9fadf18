// The triangles of one tetrahedron.
ghost use Rattle.std.specs.Prelude.{◌≡◌, ◌<◌, ◌≤◌};
ghost use Rattle.kuhn_cells.specs.Triangles.{triangles_of};

use crate::Triple;
use crate::cell::Cell;
use crate::pattern::Pattern;
use arrayvec::ArrayVec;

/// The triangles of a tetrahedron of the cell at (x, y, z), which part its inside corners from its
/// outside ones. Bit c of signs is 1 where the cell's corner c is inside.
#[inline]
pub fn triangles(x: u16, y: u16, z: u16, tetra: u8, signs: u8) -> ArrayVec<Triple, 2>
    requires x { x ≤ 65534 }
    requires y { y ≤ 65534 }
    requires z { z ≤ 65534 }
    requires tetra { tetra < 6 }
    ensures { result.items ≡ triangles_of x y z tetra signs }
{
    let pattern = Pattern::of(tetra, signs);
    let [a, b, c, d] = pattern.corners(tetra);
    let cell = Cell { x, y, z };
    let mut triangles = ArrayVec::new();
    match pattern.count() {
        1 => triangles.push(cell.tip(a, b, c, d)),
        2 => {
            let (ac, bd) = (cell.edge(a, c), cell.edge(b, d));
            triangles.push(Triple {
                a: ac,
                b: cell.edge(a, d),
                c: bd,
            });
            triangles.push(Triple {
                a: ac,
                b: bd,
                c: cell.edge(b, c),
            });
        }
        3 => triangles.push(cell.tip(a, b, d, c)),
        _ => {}
    }
    triangles
}
