// The tetrahedra round an edge.
ghost use Rattle.std.specs.Prelude.{◌≡◌, ◌≤◌, [], ◌∷◌};
ghost use Rattle.kuhn_cells.specs.Rings.{IsRing};

use arrayvec::ArrayVec;

/// The tetrahedra round an edge of a direction, each after the corner of its cell at which the edge
/// starts: as one turns round the edge, counterclockwise seen from its upper end, from the least
/// number on.
pub fn around(dir: u8) -> ArrayVec<(u8, u8), 6>
    requires some { 1 ≤ dir }
    requires within { dir ≤ 7 }
    ensures { IsRing dir result.items }
{
    match dir {
        1 => ArrayVec::from([(0, 0), (0, 1), (2, 2), (6, 5), (6, 3), (4, 4)]),
        2 => ArrayVec::from([(1, 0), (0, 3), (0, 2), (4, 5), (5, 1), (5, 4)]),
        3 => four((0, 0), (4, 4), (4, 5), (0, 2)),
        4 => ArrayVec::from([(3, 0), (2, 3), (0, 4), (0, 5), (1, 1), (3, 2)]),
        5 => four((0, 1), (0, 4), (2, 3), (2, 2)),
        6 => four((1, 0), (1, 1), (0, 5), (0, 3)),
        _ => ArrayVec::from([(0, 0), (0, 2), (0, 3), (0, 5), (0, 4), (0, 1)]),
    }
}

// Four tetrahedra.
fn four(a: (u8, u8), b: (u8, u8), c: (u8, u8), d: (u8, u8)) -> ArrayVec<(u8, u8), 6>
    ensures { result.items ≡ a ∷ b ∷ c ∷ d ∷ [] }
{
    let mut ring = ArrayVec::new();
    ring.push(a);
    ring.push(b);
    ring.push(c);
    ring.push(d);
    ring
}
