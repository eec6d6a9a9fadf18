// Grids that are looked into anew.
ghost use Rattle.std.specs.Prelude.{◌≡◌, ◌≢◌, IfOk, IsTrue, OnOk, Some};
ghost use Rattle.view_places.specs.Window.{FitsMesh};
ghost use Rattle.box_chains.specs.Tallied.{CountsAtMost};
ghost use Rattle.oct_descent.specs.After.{mesh_least_after, mesh_long_spans_after, mesh_points_after, mesh_spans_after};
ghost use Rattle.oct_descent.specs.Bound.{CountsAtLeast, CountsHullsAtLeast, mesh_least, mesh_long_spans, mesh_points, mesh_spans};
ghost use Rattle.oct_descent.specs.KeptBoxes.{places_of};
ghost use Rattle.oct_descent.specs.Trees.{IsTold};
ghost use Rattle.oct_descent.specs.Ways.{grid_root, gridded};

use crate::all_boxes::{grid_holds, look_into_all};
use crate::boxes::Boxes;
use crate::grid_values::GridValues;
use crate::grids::{CellGrid, grid_of};
use crate::old_box::OldBox;
use crate::split_box::SplitBox;
use box_chains::Desk;
use fixed_ops::Tally;
use live_clauses::{Tape, same};
use std::alloc::{AllocError, Global};
use std::marker::Model;
use view_places::{Lattice, View};

/// The cells of the grid of a list of steps over a view, with the boxes of more than one cell and the
/// lists that these hand on, so that the grid can be looked into anew for another list. Contracts see
/// the view and the list.
#[derive(Debug, Drop)]
pub struct OctTree {
    pub(crate) grid: CellGrid,
    // For each box of more than one cell its place, and behind it those of its halves.
    pub(crate) boxes: Vec<Option<SplitBox>>,
    // What looking into the boxes took, whose memory serves the next time.
    pub(crate) desk: Desk,
}

impl Model for OctTree {
    ghost use Rattle.std.specs.Prelude.{◌≡◌};
    ghost use Rattle.view_places.specs.declared.lattice.Lattice.TheVariants.{Grid};
    ghost use Rattle.oct_descent.specs.KeptBoxes.{places_of};
    ghost use Rattle.oct_descent.specs.Trees.{Gridding};
    ghost use Rattle.oct_descent.specs.Ways.{grid_root, gridded};

    ghost Value = { Gridding };

    ghost view = { λ t. t.grid };

    ghost invariant = { λ t. (t.boxes.items
        ≡ places_of (gridded t.grid.view) (grid_root t.grid.view t.grid.list))
        × (t.desk.view ≡ t.grid.view) × (t.desk.lattice ≡ Grid) };
}

impl OctTree {
    /// The grid without the boxes.
    #[inline]
    pub fn grid(&self) -> &CellGrid
        ensures { result.now ≡ self.now }
    {
        &self.grid
    }

    /// The list.
    #[inline]
    pub fn list(&self) -> &Tape
        ensures { result.now ≡ self.now.list }
    {
        let grid = self.grid();
        &grid.list
    }

    /// The view.
    #[inline]
    pub fn view(&self) -> &View
        ensures { result.now ≡ self.now.view }
    {
        let grid = self.grid();
        grid.view()
    }
}

/// Looks into the boxes of the grid of a list of steps over a view. Each step that is traced over a
/// box is counted, at most four corners with it, and each step that is evaluated at a point. In all
/// there are no more evaluations than one of a list at each corner of a working cell, the longest
/// that such a cell receives, and no fewer than one of the shortest. AllocError: there is no memory
/// for the values or the boxes.
pub fn cells(
    alloc: Global,
    list: &Tape,
    view: &View,
    tally: &mut Tally,
) -> Result<OctTree, AllocError>
    requires { FitsMesh view.now }
    ensures tree { IfOk result (λ tree. tree ≡ record { view = view.now; list = list.now }) }
    ensures at_most { CountsAtMost (mesh_points view.now list.now) (mesh_spans view.now list.now)
        tally.old tally.new }
    ensures at_least { OnOk result
        (CountsAtLeast (mesh_least view.now list.now) tally.old tally.new) }
    ensures traced { OnOk result
        (CountsHullsAtLeast (mesh_long_spans view.now list.now) tally.old tally.new) }
{
    grid_holds(view, list);
    let mut desk = Desk::new(alloc, view, Lattice::Grid, list)?;
    let (values, boxes) = look_into_all(&mut desk, list, view, None, Vec::new(alloc), true, tally)?;
    tree_of(values, boxes, desk, list, view)
}

/// Looks into the boxes of a grid anew, for another list of steps. What is counted is the work of those
/// boxes alone that the grid did not have with an equal list, and of the working cells among them: no
/// more evaluations than one of a list at each corner of such a cell, the longest that one of them
/// receives, and no fewer than one of the shortest at each that is no corner of a cell that the grid had
/// with an equal list. Each box of more than one cell among them is traced. AllocError: there is no
/// memory for the new tree, and the old one is given up.
pub fn recells(old: OctTree, list: &Tape, tally: &mut Tally) -> Result<OctTree, AllocError>
    ensures tree { IfOk result (λ tree. tree ≡ record { view = old.view; list = list.now }) }
    ensures at_most { CountsAtMost (mesh_points_after old.view (Some old.list) list.now)
        (mesh_spans_after old.view (Some old.list) list.now) tally.old tally.new }
    ensures at_least { OnOk result (CountsAtLeast
        (mesh_least_after old.view (Some old.list) list.now) tally.old tally.new) }
    ensures traced { OnOk result (CountsHullsAtLeast
        (mesh_long_spans_after old.view (Some old.list) list.now) tally.old tally.new) }
{
    if same(old.list(), list) {
        Ok(old)
    } else {
        look_into_after(old, list, tally)
    }
}

// The tree of another list over the view of a tree, after that. Its boxes are given up as they are
// read, and its values last. AllocError: there is no memory for it.
fn look_into_after(old: OctTree, list: &Tape, tally: &mut Tally) -> Result<OctTree, AllocError>
    requires { old.list ≢ list.now }
    ensures tree { IfOk result (λ tree. tree ≡ record { view = old.view; list = list.now }) }
    ensures at_most { CountsAtMost (mesh_points_after old.view (Some old.list) list.now)
        (mesh_spans_after old.view (Some old.list) list.now) tally.old tally.new }
    ensures at_least { OnOk result (CountsAtLeast
        (mesh_least_after old.view (Some old.list) list.now) tally.old tally.new) }
    ensures traced { OnOk result (CountsHullsAtLeast
        (mesh_long_spans_after old.view (Some old.list) list.now) tally.old tally.new) }
{
    let OctTree { grid, boxes, desk } = old;
    grid_holds(&grid.view, &grid.list);
    let mut desk = desk.restart(list)?;
    let root = OldBox {
        list: &grid.list,
        values: &grid.values,
    };
    let view = &grid.view;
    let (values, boxes) = look_into_all(&mut desk, list, view, Some(root), boxes, true, tally)?;
    tree_of(values, boxes, desk, list, view)
}

// The tree of boxes that were looked into. AllocError: there is no memory to share the list.
fn tree_of(
    values: GridValues,
    boxes: Boxes,
    desk: Desk,
    list: &Tape,
    view: &View,
) -> Result<OctTree, AllocError>
    requires told { IsTold view.now list.now values }
    requires places { boxes.places.items ≡ places_of (gridded view.now) (grid_root view.now list.now) }
    requires view { desk.view ≡ view.now }
    requires lattice { desk.lattice ≡ Lattice.Grid }
    ensures { IfOk result (λ tree. tree ≡ record { view = view.now; list = list.now }) }
{
    let grid = grid_of(values, list, view)?;
    Ok(OctTree {
        grid,
        boxes: boxes.places,
        desk,
    })
}
