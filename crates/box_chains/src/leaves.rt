// Which boxes are leaves.
ghost use Rattle.std.specs.Prelude.{◌≡◌};
ghost use Rattle.box_chains.specs.Chains.{is_long};

use view_places::IndexBox;

/// The longest side of a leaf of samples.
pub const LEAF: u32 = 8;

/// Whether some side of a box is longer than `leaf`, so that the box is no leaf.
#[inline]
pub fn is_long(b: IndexBox, leaf: u32) -> bool
    ensures { result ≡ is_long leaf b }
{
    b.x1 - b.x0 > leaf || b.y1 - b.y0 > leaf || b.z1 - b.z0 > leaf
}
