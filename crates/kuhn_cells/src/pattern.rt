// Which corners of a tetrahedron are inside, and how they are arranged by it.
ghost use Rattle.std.specs.Prelude.{◌≡◌, ◌<◌, All, false};
ghost use Rattle.kuhn_cells.specs.Arrangement.{arranged, arrangement, inside_count, pattern_of};
ghost use Rattle.kuhn_cells.specs.Patterns.{listed};
ghost use Rattle.kuhn_cells.specs.Triangles.{has_sign as has_sign_of};

use crate::corner::{corner_of, is_negative};

// Which of the corners v0 to v3 of a tetrahedron are inside.
#[derive(Clone, Copy)]
pub(crate) struct Pattern {
    v0: bool,
    v1: bool,
    v2: bool,
    v3: bool,
}

impl Pattern {
    // The pattern of a tetrahedron of a cell with these signs.
    #[inline]
    pub(crate) fn of(tetra: u8, signs: u8) -> Pattern
        requires { tetra < 6 }
        ensures { listed result ≡ pattern_of (has_sign_of signs) tetra }
    {
        Pattern {
            v0: has_sign(signs, corner_of(tetra, 0)),
            v1: has_sign(signs, corner_of(tetra, 1)),
            v2: has_sign(signs, corner_of(tetra, 2)),
            v3: has_sign(signs, corner_of(tetra, 3)),
        }
    }

    // How many of the corners are inside.
    #[inline]
    pub(crate) fn count(self) -> u8
        ensures { result ≡ inside_count (listed self) }
    {
        u8::from(self.v0) + u8::from(self.v1) + u8::from(self.v2) + u8::from(self.v3)
    }

    // The corners of a tetrahedron with this pattern, arranged as a, b, c and d.
    #[inline]
    pub(crate) fn corners(self, tetra: u8) -> [u8; 4]
        requires { tetra < 6 }
        ensures { result ≡ arrangement tetra (listed self) }
    {
        let [a, b, c, d] = self.arrange(is_negative(tetra));
        [
            corner_of(tetra, a),
            corner_of(tetra, b),
            corner_of(tetra, c),
            corner_of(tetra, d),
        ]
    }

    // The positions of a, b, c and d among v0 to v3.
    #[inline]
    fn arrange(self, negative: bool) -> [u8; 4]
        ensures positions { result ≡ arranged negative (listed self) }
        ensures within { All (λ k. k < 4) result }
    {
        let [a, b, c, d] = self.evenly();
        if negative { [a, b, d, c] } else { [a, b, c, d] }
    }

    // The same for a tetrahedron with a positive sign: each row is an even reordering.
    #[inline]
    fn evenly(self) -> [u8; 4]
        ensures positions { result ≡ arranged false (listed self) }
        ensures within { All (λ k. k < 4) result }
    {
        match (self.v0, self.v1, self.v2, self.v3) {
            (false, true, false, false) | (true, false, true, true) => [1, 0, 3, 2],
            (false, false, true, false) | (true, true, false, true) => [2, 0, 1, 3],
            (false, false, false, true) | (true, true, true, false) => [3, 0, 2, 1],
            (true, false, true, false) => [0, 2, 3, 1],
            (true, false, false, true) => [0, 3, 1, 2],
            (false, true, true, false) => [1, 2, 0, 3],
            (false, true, false, true) => [1, 3, 2, 0],
            (false, false, true, true) => [2, 3, 0, 1],
            _ => [0, 1, 2, 3],
        }
    }
}

// Whether a corner of a cell with these signs is inside.
#[inline]
fn has_sign(signs: u8, c: u8) -> bool
    requires { c < 8 }
    ensures { result ≡ has_sign_of signs c }
{
    (signs >> c) % 2 == 1
}
