// Whole grids whose boxes are looked into.
ghost use Rattle.std.specs.Prelude.{◌≡◌, ◌∷◌, [], IfOk, IfSome, IsTrue, None, OnOk, length};
ghost use Rattle.box_chains.specs.Redrawn.{IsNew};
ghost use Rattle.box_chains.specs.Tallied.{CountsAtMost};
ghost use Rattle.box_chains.specs.Visits.{IsVisit};
ghost use Rattle.kuhn_cells.specs.Sizes.{IsBounded};
ghost use Rattle.view_places.specs.Spans.{root_box_of};
ghost use Rattle.view_places.specs.Window.{FitsMesh, size_of};
ghost use Rattle.oct_descent.specs.After.{mesh_least_after, mesh_long_spans_after, mesh_points_after, mesh_spans_after};
ghost use Rattle.oct_descent.specs.Bound.{CountsAtLeast, CountsHullsAtLeast};
ghost use Rattle.oct_descent.specs.KeptBoxes.{places_of};
ghost use Rattle.oct_descent.specs.OldBoxes.{IsOldBox, received_by, visit_before};
ghost use Rattle.oct_descent.specs.Trees.{IsTold};
ghost use Rattle.oct_descent.specs.Ways.{grid_root, gridded};

use crate::boxes::Boxes;
use crate::descent::look_into;
use crate::grid_values::GridValues;
use crate::old_box::OldBox;
use crate::split_box::SplitBox;
use box_chains::Desk;
use fixed_ops::Tally;
use live_clauses::Tape;
use std::alloc::AllocError;
use view_places::{Lattice, View};

/// Looks into all boxes of the grid of a list over a view, after those of another list that had these
/// places, where there were such. The desk was made for the list. Gives what is known of the points,
/// and the boxes, where they are kept. AllocError: there is no memory for them.
pub fn look_into_all(
    desk: &mut Desk,
    list: &Tape,
    view: &View,
    before: Option<OldBox<'_>>,
    places: Vec<Option<SplitBox>>,
    keeps: bool,
    tally: &mut Tally,
) -> Result<(GridValues, Boxes), AllocError>
    requires desk { desk.old ≡ record {
      view = view.now;
      lattice = Lattice.Grid;
      room = length list.now;
      lists = list.now ∷ [];
    } }
    requires old { IfSome before (IsOldBox view.now (root_box_of view.now Lattice.Grid)
        places.items) }
    requires new { IsNew (visit_before before (root_box_of view.now Lattice.Grid))
        (grid_root view.now list.now) }
    requires bounded { IsBounded (size_of view.now) }
    ensures told { IfOk result (λ made. IsTold view.now list.now made.0) }
    ensures places { IfOk result (λ made. IsTrue keeps → made.1.places.items
        ≡ places_of (gridded view.now) (grid_root view.now list.now)) }
    ensures view { desk.new.view ≡ view.now }
    ensures lattice { desk.new.lattice ≡ Lattice.Grid }
    ensures at_most { CountsAtMost (mesh_points_after view.now (received_by before.entry) list.now)
        (mesh_spans_after view.now (received_by before.entry) list.now) tally.old tally.new }
    ensures at_least { OnOk result
        (CountsAtLeast (mesh_least_after view.now (received_by before.entry) list.now) tally.old tally.new) }
    ensures traced { OnOk result
        (CountsHullsAtLeast
        (mesh_long_spans_after view.now (received_by before.entry) list.now) tally.old tally.new) }
{
    grid_holds(view, list);
    let alloc = *places.allocator();
    let root = desk.root();
    let mut values = GridValues::new(alloc, view.grid())?;
    let mut boxes = Boxes::new(alloc, list, keeps, places)?;
    // The list that the desk was made with has the number 0.
    look_into(desk, root, before, 0, &mut boxes, &mut values, tally)?;
    Ok((values, boxes))
}

/// Lets a proof know that the box of all cells of the grid over a view may receive a list, and that a
/// grid of which a mesh may be made has no more cells than there is room for.
#[inline]
pub fn grid_holds(view: &View, list: &Tape)
    ensures visit { IsVisit (gridded view.now).boxes (grid_root view.now list.now) }
    ensures bounded { FitsMesh view.now → IsBounded (size_of view.now) }
{
    let _n = view.grid();
    let _len = list.len();
}
