// Working cells, whose corners are evaluated.
ghost use Rattle.std.specs.Prelude.{◌≡◌, ◌<◌, [], false, length, OnOk};
ghost use Rattle.box_chains.specs.Chains.{is_long as is_long_for};
ghost use Rattle.box_chains.specs.Desks.{list_of};
ghost use Rattle.kuhn_cells.specs.Sizes.{IsBounded};
ghost use Rattle.kuhn_cells.specs.Triangles.{point};
ghost use Rattle.oct_descent.specs.Gaps.{AreGaps};
ghost use Rattle.oct_descent.specs.GridValues.{list_grid_value};
ghost use Rattle.oct_descent.specs.Halves.{MayLook};
ghost use Rattle.oct_descent.specs.Kinds.{known_of, mesh};
ghost use Rattle.oct_descent.specs.Known.{AllKnown, ChargesCorners, Grows, PaysCorners};
ghost use Rattle.oct_descent.specs.Tables.{IsSame};

use crate::gap::Gap;
use crate::gaps::fill_gaps;
use crate::grid_values::GridValues;
use arrayvec::ArrayVec;
use box_chains::{Desk, make_rows};
use fixed_ops::Tally;
use std::alloc::AllocError;
use view_places::IndexBox;

/// Evaluates the list of a number at those corners of a cell that are not known. AllocError: there is
/// no memory for their values.
pub fn fill_cell(
    desk: &mut Desk,
    b: IndexBox,
    received: usize,
    values: &mut GridValues,
    tally: &mut Tally,
) -> Result<(), AllocError>
    requires may { MayLook mesh desk.old b received (known_of values.old) }
    requires one { is_long_for 1 b ≡ false }
    ensures known { OnOk result (AllKnown (known_of values.new) b) }
    ensures grows { Grows (list_grid_value desk.old.view (list_of desk.old received)) b (known_of values.old)
        (known_of values.new) }
    ensures counted { ChargesCorners b (length (list_of desk.old received)) (known_of values.old) (known_of values.new)
        tally.old tally.new }
    ensures paid { PaysCorners b (length (list_of desk.old received)) (known_of values.old) (known_of values.new)
        tally.old tally.new }
    ensures kept { desk.new ≡ desk.old }
{
    values.holds();
    let list = desk.lists.list(received);
    // All memory is taken first, so that no value is lost for want of it.
    make_rows(&mut desk.rows, list.len())?;
    let mut gaps = ArrayVec::new();
    find_gaps(b.x0, b.y0, b.z0, values, &mut gaps)?;
    fill_gaps(
        &desk.places,
        gaps.as_slice(),
        &list,
        &mut desk.rows,
        values,
        tally,
    );
    Ok(())
}

// Finds those corners of a cell that are not known, each with room for its value. AllocError: there
// is no memory for that.
#[inline]
fn find_gaps(
    x: u32,
    y: u32,
    z: u32,
    values: &mut GridValues,
    gaps: &mut ArrayVec<Gap, 8>,
) -> Result<(), AllocError>
    requires few { IsBounded values.old.n }
    requires x { x < values.old.n.x }
    requires y { y < values.old.n.y }
    requires z { z < values.old.n.z }
    requires none { gaps.old.items ≡ [] }
    ensures gaps { OnOk result (AreGaps values.new (point x y z) gaps.new.items) }
    ensures same { IsSame values.old values.new }
{
    let first = values.together(x, y, z);
    for c in 0..8 {
        if values.corner(first, x, y, z, c).is_none() {
            let at = values.corner_room(first, x, y, z, c)?;
            gaps.push(Gap {
                x: x + c % 2,
                y: y + c / 2 % 2,
                z: z + c / 4 % 2,
                at,
            });
        }
    }
    Ok(())
}
