// The tops of all columns.
ghost use Rattle.std.specs.Prelude.{◌≡◌, IfOk, OnOk};
ghost use Rattle.view_places.specs.Window.{FitsHeight};
ghost use Rattle.box_chains.specs.Tallied.{CountsAtMost};
ghost use Rattle.height_map.specs.Bound.{CountsPoints, CountsSpans, height_points, height_spans, near_spans};
ghost use Rattle.height_map.specs.Tops.{tops_of};

use crate::drawing::Mapper;
use box_chains::Desk;
use box_descent::descend;
use fixed_ops::Tally;
use live_clauses::Tape;
use std::alloc::{AllocError, Global};
use std::marker::Model;
use view_places::{Lattice, View};

/// A height map: what lies nearest in each column of samples.
#[derive(Debug, Drop)]
pub struct TopMap {
    /// The columns of a row.
    pub w: u32,
    /// The rows.
    pub h: u32,
    /// The samples of a column.
    pub d: u32,
    /// The tops, row by row from the top of the map on, and each row from the left on: 1 plus the
    /// greatest index of a sample of the column that is inside, or 0 where none is.
    pub tops: Vec<u16>,
}

impl Model for TopMap {
    ghost use Rattle.height_map.specs.TopMaps.{Heights};

    ghost Value = { Heights };

    ghost view = { λ m. record { w = m.w; h = m.h; d = m.d; tops = m.tops.items } };
}

/// The height map of a list of steps over a view. Each step that is traced over a box is counted, at
/// most four corners with it, and each step that is evaluated at a sample. There are as many
/// evaluations as those samples take that do not lie behind a top, each in the last box on the way to
/// it, and as many traced steps as the boxes on the ways to these samples receive.
/// AllocError: there is no memory for the map, and no more work was done than a map takes.
pub fn heights(
    alloc: Global,
    list: &Tape,
    view: &View,
    tally: &mut Tally,
) -> Result<TopMap, AllocError>
    requires { FitsHeight view.now }
    ensures map { IfOk result (λ map. map ≡ record
        { w = view.now.w; h = view.now.h; d = view.now.d; tops = tops_of view.now list.now }) }
    ensures at_most { CountsAtMost (height_points view.now list.now)
        (height_spans view.now list.now) tally.old tally.new }
    ensures points { OnOk result
        (CountsPoints (height_points view.now list.now) tally.old tally.new) }
    ensures hulls { OnOk result
        (CountsSpans (near_spans view.now list.now) tally.old tally.new) }
{
    // A list can be evaluated.
    let _len = list.len();
    let mut desk = Desk::new(alloc, view, Lattice::Height, list)?;
    let root = desk.root();
    let mut mapper = Mapper {
        tops: vec![in alloc; 0u16; view.w as usize * view.h as usize]?,
    };
    // The list that the desk was made with has the number 0.
    descend(&mut desk, 0, &[root], &mut mapper, tally)?;
    Ok(TopMap {
        w: view.w,
        h: view.h,
        d: view.d,
        tops: mapper.tops,
    })
}
