// The corners of the six tetrahedra of a cell.
ghost use Rattle.std.specs.Prelude.{◌≡◌, ◌<◌};
ghost use Rattle.kuhn_cells.specs.Corners.{corner, is_negative as is_negative_of};

// The corners v0 to v3 of each tetrahedron, which adds the axes in an order of its own: x y z,
// x z y, y x z, y z x, z x y and z y x.
const CORNERS: [[u8; 4]; 6] = [
    [0, 1, 3, 7],
    [0, 1, 5, 7],
    [0, 2, 3, 7],
    [0, 2, 6, 7],
    [0, 4, 5, 7],
    [0, 4, 6, 7],
];

/// One of the corners v0 to v3 of a tetrahedron, as a mask: 1 for a step along x, 2 for one along y
/// and 4 for one along z.
#[inline]
pub fn corner_of(tetra: u8, which: u8) -> u8
    requires tetra { tetra < 6 }
    requires which { which < 4 }
    ensures corner { result ≡ corner tetra which }
    ensures within { result < 8 }
{
    CORNERS[usize::from(tetra)][usize::from(which)]
}

// Whether the sign of a tetrahedron is negative.
#[inline]
pub(crate) fn is_negative(tetra: u8) -> bool
    requires { tetra < 6 }
    ensures { result ≡ is_negative_of tetra }
{
    matches!(tetra, 1 | 2 | 5)
}
