// Plane grids whose cells are filled box by box.

use crate::cell::look_into_cell;
use crate::known_values::KnownValues;
use box_chains::{Desk, is_long};
use box_descent::{Border, Found, Order, Plan, Visitor};
use fixed_ops::Tally;
use std::alloc::AllocError;
use view_places::IndexBox;

/// The longest side of a box that is not split.
const LEAF: u32 = 1;

/// A plane grid whose working cells get the values of their corners. Cells come last first: the last one of
/// a box has most of the corners that are not known, so that they are evaluated side by side, and the others
/// are seldom traced then.
#[derive(Drop)]
pub(crate) struct CellFiller {
    /// The values that are known.
    pub values: KnownValues,
}

impl Visitor for CellFiller {
    ghost use Rattle.contour_lines.specs.Fillers.{filling};

    type Mark = ();

    ghost meaning = { filling };

    #[inline]
    fn plan(&self) -> Plan {
        Plan {
            leaf: LEAF,
            traces_leaves: false,
            prunes_inside: false,
            border: Border::Plane,
            order: Order::LastLeafFirst,
        }
    }

    // What is known of a cell changes while those beside it are visited, so that a visit asks for it.
    #[inline]
    fn wants(&self, desk: &Desk, b: IndexBox) -> bool {
        true
    }

    #[inline]
    fn visit(
        &mut self,
        desk: &mut Desk,
        b: IndexBox,
        given: usize,
        found: Found,
        tally: &mut Tally,
    ) -> Result<(), AllocError> {
        // A box of more cells that is not split has no working cell.
        if is_long(b, LEAF) {
            return Ok(());
        }
        look_into_cell(desk, b, given, &mut self.values, tally)
    }

    #[inline]
    fn open(
        &mut self,
        desk: &Desk,
        b: IndexBox,
        given: usize,
        pruned: usize,
    ) -> Result<Option<()>, AllocError> {
        Ok(Some(()))
    }

    #[inline]
    fn close(&mut self, mark: ()) {}
}
