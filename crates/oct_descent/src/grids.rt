// Grids whose boxes are looked into.
ghost use Rattle.std.specs.Prelude.{◌≡◌, IfOk, OnOk};
ghost use Rattle.view_places.specs.Window.{FitsMesh};
ghost use Rattle.box_chains.specs.Tallied.{CountsAtMost};
ghost use Rattle.oct_descent.specs.Bound.{CountsAtLeast, CountsHullsAtLeast, mesh_least, mesh_long_spans, mesh_points, mesh_spans};
ghost use Rattle.oct_descent.specs.Trees.{IsTold};

use crate::all_boxes::{grid_holds, look_into_all};
use crate::grid_values::GridValues;
use box_chains::Desk;
use fixed_ops::Tally;
use live_clauses::Tape;
use std::alloc::{AllocError, Global};
use std::marker::Model;
use view_places::{Lattice, View};

/// The cells of the grid of a list of steps over a view, by boxes: the values of the corners of all
/// cells that have both an inside and an outside one. Contracts see the view and the list.
#[derive(Debug, Drop)]
pub struct CellGrid {
    pub(crate) view: View,
    pub(crate) list: Tape,
    pub(crate) values: GridValues,
}

impl Model for CellGrid {
    ghost use Rattle.oct_descent.specs.Trees.{Gridding, IsTold};

    ghost Value = { Gridding };

    ghost view = { λ t. record { view = t.view; list = t.list } };

    ghost invariant = { λ t. IsTold t.view t.list t.values };
}

/// Looks into the boxes of the grid of a list of steps over a view, and keeps no box. Each step that is
/// traced over a box is counted, at most four corners with it, and each step that is evaluated at a
/// point. In all there are no more evaluations than one of a list at each corner of a working cell, the
/// longest that such a cell receives, and no fewer than one of the shortest. AllocError: there is no
/// memory for the values.
pub fn cell_grid(
    alloc: Global,
    list: &Tape,
    view: &View,
    tally: &mut Tally,
) -> Result<CellGrid, AllocError>
    requires { FitsMesh view.now }
    ensures grid { IfOk result (λ grid. grid ≡ record { view = view.now; list = list.now }) }
    ensures at_most { CountsAtMost (mesh_points view.now list.now) (mesh_spans view.now list.now)
        tally.old tally.new }
    ensures at_least { OnOk result
        (CountsAtLeast (mesh_least view.now list.now) tally.old tally.new) }
    ensures traced { OnOk result
        (CountsHullsAtLeast (mesh_long_spans view.now list.now) tally.old tally.new) }
{
    grid_holds(view, list);
    let mut desk = Desk::new(alloc, view, Lattice::Grid, list)?;
    let (values, _) = look_into_all(&mut desk, list, view, None, Vec::new(alloc), false, tally)?;
    grid_of(values, list, view)
}

/// The grid of a list over a view, where this is known of it. AllocError: there is no memory to share
/// the list.
pub(crate) fn grid_of(values: GridValues, list: &Tape, view: &View) -> Result<CellGrid, AllocError>
    requires { IsTold view.now list.now values }
    ensures { IfOk result (λ grid. grid ≡ record { view = view.now; list = list.now }) }
{
    Ok(CellGrid {
        view: *view,
        list: list.share()?,
        values,
    })
}
