// The values and the signs of a plane grid.
ghost use Rattle.std.specs.Prelude.{◌≡◌, IfOk, OnOk};
ghost use Rattle.box_chains.specs.Tallied.{CountsAtMost};
ghost use Rattle.oct_descent.specs.Bound.{CountsAtLeast, CountsHullsAtLeast};
ghost use Rattle.view_places.specs.Window.{FitsContour, IsWindow};
ghost use Rattle.contour_lines.specs.Bound.{contour_least, contour_long_spans, contour_points, contour_spans, flat_least, flat_long_spans, flat_points, flat_spans};
ghost use Rattle.contour_lines.specs.Signs.{HasCorners, HasSigns};
ghost use Rattle.contour_lines.specs.Tables.{known_of};
ghost use Rattle.contour_lines.specs.Trees.{IsTold};

use crate::cell_filler::CellFiller;
use crate::flat::lay_flat;
use crate::known_values::KnownValues;
use crate::sides::{sides_of, signs_of};
use box_chains::Desk;
use box_descent::descend;
use fixed_ops::{Fx, Tally};
use live_clauses::Tape;
use std::alloc::{AllocError, Global};
use view_places::{Lattice, View};

/// What is found of a plane grid: enough to draw the outline of what is inside.
#[derive(Debug, Drop)]
pub struct PlaneTable {
    /// How many cells it has along each axis.
    pub n: u32,
    /// A number for each point, row by row: the value at each corner of a cell that has both an inside
    /// corner and an outside one, and any elsewhere.
    pub values: Vec<Fx>,
    /// For each cell, row by row, a bit for each corner that is inside: 1 for its lowest corner, 2 for the
    /// next along x, 4 for the next along y, and 8 for the one between these.
    pub signs: Vec<u8>,
}

/// Looks into the boxes of the plane grid of a list of steps over a view, at its height. Each step that is
/// traced over a box is counted, at most four corners with it, and each step that is evaluated at a point.
/// In all there are no more evaluations than one of a list at each corner of a working cell, the longest
/// that such a cell receives, and no fewer than one of the shortest. Each box of more than one cell on the
/// ways to the cells is traced. AllocError: there is no memory for the values.
pub fn plane_table(
    alloc: Global,
    list: &Tape,
    view: &View,
    tally: &mut Tally,
) -> Result<PlaneTable, AllocError>
    requires { FitsContour view.now }
    ensures n { IfOk result (λ table. table.n ≡ view.now.nx) }
    ensures signs { IfOk result (λ table. HasSigns view.now list.now table.signs.items) }
    ensures corners { IfOk result (λ table. HasCorners view.now list.now table.values.items) }
    ensures at_most { CountsAtMost (contour_points view.now list.now)
        (contour_spans view.now list.now) tally.old tally.new }
    ensures at_least { OnOk result
        (CountsAtLeast (contour_least view.now list.now) tally.old tally.new) }
    ensures traced { OnOk result
        (CountsHullsAtLeast (contour_long_spans view.now list.now) tally.old tally.new) }
{
    let flat = lay_flat(view);
    let values = look_into_all(alloc, list, &flat, tally)?;
    values.holds();
    let sides = sides_of(alloc, &values)?;
    let signs = signs_of(alloc, values.nx(), values.ny(), &sides)?;
    Ok(PlaneTable {
        n: view.nx,
        values: values.into_values(),
        signs,
    })
}

// Looks into all boxes of the plane grid of a list over a view that lies flat. AllocError: there is no
// memory for the values.
fn look_into_all(
    alloc: Global,
    list: &Tape,
    view: &View,
    tally: &mut Tally,
) -> Result<KnownValues, AllocError>
    requires { view.now.nz ≡ 1 }
    ensures told { IfOk result (λ values. IsTold view.now list.now (known_of values)) }
    ensures window { IsWindow view.now }
    ensures at_most { CountsAtMost (flat_points view.now list.now) (flat_spans view.now list.now)
        tally.old tally.new }
    ensures at_least { OnOk result (CountsAtLeast (flat_least view.now list.now) tally.old tally.new) }
    ensures traced { OnOk result
        (CountsHullsAtLeast (flat_long_spans view.now list.now) tally.old tally.new) }
{
    let n = view.grid();
    let _len = list.len();
    let mut desk = Desk::new(alloc, view, Lattice::Grid, list)?;
    let root = desk.root();
    let mut filler = CellFiller {
        values: KnownValues::new(alloc, n)?,
    };
    // The list that the desk was made with has the number 0.
    descend(&mut desk, 0, &[root], &mut filler, tally)?;
    Ok(filler.values)
}
