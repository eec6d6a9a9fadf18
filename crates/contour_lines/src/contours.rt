// The contour of a list of steps over a view.
ghost use Rattle.std.specs.Prelude.{IfOk, OnOk};
ghost use Rattle.box_chains.specs.Tallied.{CountsAtMost};
ghost use Rattle.live_clauses.specs.Steps.{tape_value};
ghost use Rattle.oct_descent.specs.Bound.{CountsAtLeast, CountsHullsAtLeast};
ghost use Rattle.plane_loops.specs.Closed.{IsClosedContour};
ghost use Rattle.plane_loops.specs.Contours.{IsContour};
ghost use Rattle.view_places.specs.Window.{FitsContour, IsWindow};
ghost use Rattle.contour_lines.specs.Bound.{contour_least, contour_long_spans, contour_points, contour_spans};
ghost use Rattle.contour_lines.specs.PlaneGrids.{plane_over};

use crate::planes::plane_table;
use fixed_ops::Tally;
use live_clauses::Tape;
use plane_loops::{Loops, link_loops};
use std::alloc::{AllocError, Global};
use view_places::View;

/// The contour of a list of steps over a view, at its height: closed loops that part the points of the
/// plane grid that are inside from the others, with the inside on their left. Exactly one segment comes to
/// each vertex and exactly one goes on, and every loop has at least three. No point of the border is
/// inside. The work is that of `plane_table`. AllocError: there is no memory for the values or the loops.
pub fn contour(
    alloc: Global,
    list: &Tape,
    view: &View,
    tally: &mut Tally,
) -> Result<Loops, AllocError>
    requires { FitsContour view.now }
    ensures contour { IfOk result (IsContour (plane_over view.now (λ p. tape_value p list.now))) }
    ensures closed { IfOk result
        (IsClosedContour (plane_over view.now (λ p. tape_value p list.now))) }
    ensures at_most { CountsAtMost (contour_points view.now list.now)
        (contour_spans view.now list.now) tally.old tally.new }
    ensures at_least { OnOk result
        (CountsAtLeast (contour_least view.now list.now) tally.old tally.new) }
    ensures traced { OnOk result
        (CountsHullsAtLeast (contour_long_spans view.now list.now) tally.old tally.new) }
{
    window_holds(view);
    let table = plane_table(alloc, list, view, tally)?;
    link_loops(alloc, table.n, &table.values, &table.signs)
}

// Lets a proof know what every view keeps.
#[inline]
fn window_holds(view: &View)
    ensures { IsWindow view.now }
{
    let _size = view.grid();
}
