// Working cells, whose corners are evaluated.
ghost use Rattle.std.specs.Prelude.{◌≡◌, ◌<◌, false, length, OnOk};
ghost use Rattle.box_chains.specs.Chains.{is_long as is_long_for};
ghost use Rattle.box_chains.specs.Desks.{list_of};
ghost use Rattle.kuhn_cells.specs.Triangles.{point};
ghost use Rattle.oct_descent.specs.Halves.{MayLook};
ghost use Rattle.oct_descent.specs.Known.{AllKnown, ChargesCorners, Grows, PaysCorners};
ghost use Rattle.contour_lines.specs.Gaps.{AreGaps};
ghost use Rattle.contour_lines.specs.Tables.{known_of};
ghost use Rattle.contour_lines.specs.Ways.{flat_value, floor_of, plane};

use crate::gap::Gap;
use crate::gaps::fill_gaps;
use crate::known_values::KnownValues;
use arrayvec::ArrayVec;
use box_chains::{Desk, make_rows};
use fixed_ops::Tally;
use std::alloc::AllocError;
use view_places::IndexBox;

/// Evaluates the list of a number at those corners of a cell that are not known. AllocError: there is
/// no memory for evaluating it.
pub fn fill_cell(
    desk: &mut Desk,
    b: IndexBox,
    received: usize,
    values: &mut KnownValues,
    tally: &mut Tally,
) -> Result<(), AllocError>
    requires may { MayLook plane desk.old b received (known_of values.old) }
    requires flat { desk.old.view.nz ≡ 1 }
    requires one { is_long_for 1 b ≡ false }
    ensures known { OnOk result (AllKnown (known_of values.new) (floor_of b)) }
    ensures grows { Grows (flat_value desk.old.view (list_of desk.old received)) b (known_of values.old)
        (known_of values.new) }
    ensures counted { ChargesCorners (floor_of b) (length (list_of desk.old received))
        (known_of values.old) (known_of values.new) tally.old tally.new }
    ensures paid { PaysCorners (floor_of b) (length (list_of desk.old received))
        (known_of values.old) (known_of values.new) tally.old tally.new }
    ensures kept { desk.new ≡ desk.old }
{
    values.holds();
    let list = desk.lists.list(received);
    make_rows(&mut desk.rows, list.len())?;
    let gaps = find_gaps(b.x0, b.y0, values);
    fill_gaps(
        &desk.places,
        gaps.as_slice(),
        &list,
        &mut desk.rows,
        values,
        tally,
    );
    Ok(())
}

// Finds those corners of a cell that are not known.
#[inline]
fn find_gaps(x: u32, y: u32, values: &KnownValues) -> ArrayVec<Gap, 4>
    requires x { x < values.now.n.x }
    requires y { y < values.now.n.y }
    ensures { AreGaps (known_of values.now) (point x y 0) result.items }
{
    values.holds();
    let mut gaps = ArrayVec::new();
    for c in 0..4 {
        let gap = Gap {
            x: x + c % 2,
            y: y + c / 2,
        };
        if values.get(gap.x, gap.y).is_none() {
            gaps.push(gap);
        }
    }
    gaps
}
