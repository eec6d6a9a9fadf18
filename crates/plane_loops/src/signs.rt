// Which corners of a cell are inside, bit by bit.
ghost use Rattle.std.specs.Prelude.{◌≡◌, ◌≤◌};
ghost use Rattle.kuhn_cells.specs.Arrangement.{differ};
ghost use Rattle.kuhn_cells.specs.Triangles.{has_sign as has_sign_of};
ghost use Rattle.plane_loops.specs.Following.{rank_of};

// Whether a corner of a cell with these signs is inside.
#[inline]
pub(crate) fn has_sign(signs: u8, corner: u8) -> bool
    requires { corner ≤ 3 }
    ensures { result ≡ has_sign_of signs corner }
{
    (signs >> corner) % 2 == 1
}

// Whether the edge in a direction from the lowest corner of a cell with these signs holds a vertex.
#[inline]
pub(crate) fn is_mixed(signs: u8, dir: u8) -> bool
    requires { dir ≤ 3 }
    ensures { result ≡ differ (has_sign_of signs 0) (has_sign_of signs dir) }
{
    has_sign(signs, 0) != has_sign(signs, dir)
}

// How many of the lower directions hold a vertex.
#[inline]
pub(crate) fn rank(signs: u8, dir: u8) -> u32
    requires some { 1 ≤ dir }
    requires few { dir ≤ 3 }
    ensures rank { result ≡ rank_of signs dir }
    ensures small { result ≤ 2 }
{
    u32::from(dir > 1 && is_mixed(signs, 1)) + u32::from(dir > 2 && is_mixed(signs, 2))
}
