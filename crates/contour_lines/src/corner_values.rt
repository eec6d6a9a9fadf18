// The known corners of a cell.
ghost use Rattle.std.specs.Prelude.{◌≡◌, ◌<◌};
ghost use Rattle.kuhn_cells.specs.Triangles.{point};
ghost use Rattle.contour_lines.specs.Corners.{IsSeen, side_seen};
ghost use Rattle.contour_lines.specs.Tables.{known_of};

use crate::known_values::KnownValues;
use crate::seen::Seen;
use fixed_ops::{Fx, is_inside};

/// What the known corners of the cell at a place show.
#[inline]
pub fn seen(values: &KnownValues, x: u32, y: u32) -> Seen
    requires x { x < values.now.n.x }
    requires y { y < values.now.n.y }
    ensures { IsSeen (known_of values.now) (point x y 0) result }
{
    values.holds();
    let mut seen = Seen {
        all: true,
        inside: false,
        outside: false,
    };
    for c in 0..4 {
        seen = with_corner(seen, values.get(x + c % 2, y + c / 2));
    }
    seen
}

// What is seen with one more corner.
#[inline]
fn with_corner(seen: Seen, corner: Option<Fx>) -> Seen
    ensures { result ≡ side_seen seen corner }
{
    match corner {
        None => Seen { all: false, ..seen },
        Some(value) => Seen {
            all: seen.all,
            inside: seen.inside || is_inside(value),
            outside: seen.outside || !is_inside(value),
        },
    }
}
