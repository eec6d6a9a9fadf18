// Cells of a plane grid that are looked into.
ghost use Rattle.std.specs.Prelude.{◌≡◌, OnOk, IsTrue, length, false};
ghost use Rattle.box_chains.specs.Chains.{is_long as is_long_for, visit};
ghost use Rattle.box_chains.specs.Desks.{list_of};
ghost use Rattle.box_chains.specs.Tallied.{CountsAtMost};
ghost use Rattle.kuhn_cells.specs.Sizes.{SameSize};
ghost use Rattle.kuhn_cells.specs.Triangles.{point};
ghost use Rattle.oct_descent.specs.Bound.{CountsNoHull};
ghost use Rattle.oct_descent.specs.Halves.{MayLook};
ghost use Rattle.oct_descent.specs.Known.{AreSettled, AreWorked, ChargesBox, Grows, Known, PaysBox};
ghost use Rattle.oct_descent.specs.Ways.{is_open as is_open_for, is_open_by};
ghost use Rattle.view_places.specs.Window.{size_of};
ghost use Rattle.contour_lines.specs.Corners.{IsSeen, IsShown};
ghost use Rattle.contour_lines.specs.Tables.{known_of};
ghost use Rattle.contour_lines.specs.Ways.{flat_value, meets_sides as meets_sides_of, planar, plane};

use crate::corner_values::seen;
use crate::filling::fill_cell;
use crate::known_values::KnownValues;
use crate::seen::Seen;
use box_chains::Desk;
use fixed_ops::Tally;
use kuhn_cells::GridSize;
use std::alloc::AllocError;
use view_places::IndexBox;

/// Looks into a cell, which receives a list: evaluates its corners that are not known, where it is a
/// working one. Nothing is traced where its known corners show how it lies.
#[inline(always)]
pub(crate) fn look_into_cell(
    desk: &mut Desk,
    b: IndexBox,
    received: usize,
    values: &mut KnownValues,
    tally: &mut Tally,
) -> Result<(), AllocError>
    requires may { MayLook plane desk.old b received (known_of values.old) }
    requires flat { desk.old.view.nz ≡ 1 }
    requires one { is_long_for 1 b ≡ false }
    ensures settled { OnOk result
        (AreSettled (planar desk.old.view) (flat_value desk.old.view (list_of desk.old received)) b
        (known_of values.new)) }
    ensures worked { OnOk result
        (AreWorked (planar desk.old.view) (visit b (list_of desk.old received)) (known_of values.new)) }
    ensures grows { Grows (flat_value desk.old.view (list_of desk.old received)) b (known_of values.old)
        (known_of values.new) }
    ensures counted { ChargesBox (planar desk.old.view) (visit b (list_of desk.old received))
        (known_of values.old) (known_of values.new) tally.old tally.new }
    ensures paid { PaysBox (planar desk.old.view) (visit b (list_of desk.old received))
        (known_of values.old) (known_of values.new) tally.old tally.new }
    ensures untraced { IsShown (known_of values.old) (point b.x0 b.y0 0)
        → CountsNoHull tally.old tally.new }
    ensures kept { desk.new ≡ desk.old }
{
    values.holds();
    let seen = seen(values, b.x0, b.y0);
    if seen.all {
        return Ok(());
    }
    if !is_working(desk, b, received, values.n(), seen, tally) {
        return Ok(());
    }
    fill_cell(desk, b, received, values, tally)
}

// Whether a cell is a working one, by what its known corners show. Nothing is traced where they lie
// on both sides.
#[inline]
fn is_working(
    desk: &mut Desk,
    b: IndexBox,
    received: usize,
    n: GridSize,
    seen: Seen,
    tally: &mut Tally,
) -> bool
    requires may { (t : Known) × MayLook plane desk.old b received t × IsSeen t
        (point b.x0 b.y0 0) seen }
    requires flat { desk.old.view.nz ≡ 1 }
    requires one { is_long_for 1 b ≡ false }
    requires n { SameSize n (size_of desk.old.view) }
    ensures open { result
        ≡ is_open_for (planar desk.old.view) (visit b (list_of desk.old received)) }
    ensures counted { CountsAtMost 0 (length (list_of desk.old received)) tally.old tally.new }
    ensures untraced { IsTrue seen.inside → IsTrue seen.outside → tally.new ≡ tally.old }
    ensures kept { desk.new ≡ desk.old }
{
    if seen.inside && seen.outside {
        return true;
    }
    let told = desk.look_apart(received, b, tally);
    is_open(told, n, b)
}

// Whether a box stays open, by what a look told.
#[inline]
fn is_open(told: Option<bool>, n: GridSize, b: IndexBox) -> bool
    ensures { result ≡ is_open_by (meets_sides_of n) b told }
{
    match told {
        None => true,
        Some(true) => meets_sides(n, b),
        Some(false) => false,
    }
}

// Whether a box covers a point of the border.
#[inline]
fn meets_sides(n: GridSize, b: IndexBox) -> bool
    ensures { result ≡ meets_sides_of n b }
{
    b.x0 == 0 || b.x1 == n.x || b.y0 == 0 || b.y1 == n.y
}
