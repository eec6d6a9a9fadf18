// The values of the corners of a cell.
ghost use Rattle.std.specs.Prelude.{◌≡◌, ◌<◌, ◌≤◌, None, IfSome};
ghost use Rattle.kuhn_cells.specs.Triangles.{point};
ghost use Rattle.kuhn_cells.specs.Sizes.{IsBounded};
ghost use Rattle.oct_descent.specs.Corners.{AreCorners, IsSeen, LacksCorner, are_mixed as is_mixed_of, side_seen};

use crate::grid_values::GridValues;
use crate::seen::Seen;
use fixed_ops::{Fx, is_inside};

/// What the known corners of the cell at a place show.
#[inline]
pub fn seen(values: &GridValues, x: u32, y: u32, z: u32) -> Seen
    requires few { IsBounded values.now.n }
    requires x { x < values.now.n.x }
    requires y { y < values.now.n.y }
    requires z { z < values.now.n.z }
    ensures { IsSeen values.now (point x y z) result }
{
    let first = values.together(x, y, z);
    let mut seen = Seen {
        all: true,
        inside: false,
        outside: false,
    };
    for c in 0..8 {
        seen = with_corner(seen, values.corner(first, x, y, z, c));
    }
    seen
}

// What is seen with one more corner.
#[inline]
fn with_corner(seen: Seen, corner: Option<Fx>) -> Seen
    ensures { result ≡ side_seen seen corner }
{
    match corner {
        None => Seen { all: false, ..seen },
        Some(value) => Seen {
            all: seen.all,
            inside: seen.inside || is_inside(value),
            outside: seen.outside || !is_inside(value),
        },
    }
}

/// The values of the corners of the cell at a place, each at the place of its mask, where all of
/// them are known.
#[inline(always)]
pub fn corners(values: &GridValues, x: u32, y: u32, z: u32) -> Option<[Fx; 8]>
    requires few { IsBounded values.now.n }
    requires x { x < values.now.n.x }
    requires y { y < values.now.n.y }
    requires z { z < values.now.n.z }
    ensures all { IfSome result (λ found. AreCorners values.now (point x y z) found) }
    ensures lacks { result ≡ None → LacksCorner values.now (point x y z) }
{
    let first = values.together(x, y, z);
    let mut found = [Fx::from_raw(0); 8];
    for c in 0..8 {
        let value = values.corner(first, x, y, z, c)?;
        found[c as usize] = value;
    }
    Some(found)
}

/// Whether some of these values is inside and some is outside.
#[inline]
pub fn is_mixed(values: &[Fx]) -> bool
    ensures { result ≡ is_mixed_of values.now }
{
    let mut inside = false;
    let mut outside = false;
    for value in values {
        if is_inside(*value) {
            inside = true;
        } else {
            outside = true;
        }
    }
    inside && outside
}
