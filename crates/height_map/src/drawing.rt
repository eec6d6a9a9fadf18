// Height maps that are drawn box by box.
ghost use Rattle.std.specs.Prelude.{◌≡◌, false, length, OnOk, OnErr};
ghost use Rattle.box_chains.specs.Desks.{list_of};
ghost use Rattle.box_chains.specs.Chains.{is_long as is_long_for};
ghost use Rattle.box_chains.specs.Sums.{sum_in};
ghost use Rattle.fixed_ops.specs.Counts.{RisesBy, points_of};
ghost use Rattle.height_map.specs.Columns.{Changes, covers, leaf_cost, leaf_top};
ghost use Rattle.height_map.specs.Desks.{MayDraw};

use crate::columns::{is_covered, lift};
use crate::leaf::draw_leaf;
use box_chains::{Desk, LEAF, make_rows};
use box_descent::{Border, Found, Order, Plan, Visitor};
use fixed_ops::Tally;
use std::alloc::AllocError;
use view_places::IndexBox;

/// A height map that is drawn box by box, the nearest boxes first: each gives the columns that have no
/// top yet the one that its samples give them.
#[derive(Drop)]
pub(crate) struct Mapper {
    /// The tops, row by row.
    pub tops: Vec<u16>,
}

impl Visitor for Mapper {
    ghost use Rattle.height_map.specs.Mappers.{mapping};

    type Mark = ();

    ghost meaning = { mapping };

    #[inline]
    fn plan(&self) -> Plan {
        Plan {
            leaf: LEAF,
            traces_leaves: true,
            prunes_inside: false,
            border: Border::Nowhere,
            order: Order::NearestFirst,
        }
    }

    #[inline]
    fn wants(&self, desk: &Desk, b: IndexBox) -> bool {
        !is_covered(desk.w(), b, &self.tops)
    }

    #[inline]
    fn visit(
        &mut self,
        desk: &mut Desk,
        b: IndexBox,
        given: usize,
        found: Found,
        tally: &mut Tally,
    ) -> Result<(), AllocError> {
        match found {
            Found::Inside(_) => {
                lift(desk.w(), b, &mut self.tops);
                Ok(())
            }
            Found::Ambiguous(pruned) => draw_by(desk, b, pruned, &mut self.tops, tally),
            Found::Outside | Found::Untraced => Ok(()),
        }
    }

    #[inline]
    fn open(
        &mut self,
        desk: &Desk,
        b: IndexBox,
        given: usize,
        pruned: usize,
    ) -> Result<Option<()>, AllocError> {
        Ok(Some(()))
    }

    #[inline]
    fn close(&mut self, mark: ()) {}
}

// Gives each column of a leaf that has no top the one that its samples give it, by the list of a number.
// AllocError: there is no memory for the values of the list, and nothing was drawn.
#[inline]
fn draw_by(
    desk: &mut Desk,
    b: IndexBox,
    at: usize,
    tops: &mut [u16],
    tally: &mut Tally,
) -> Result<(), AllocError>
    requires may { MayDraw desk.old b at (length tops.old) }
    requires short { is_long_for 8 b ≡ false }
    ensures tops { OnOk result (Changes (covers desk.old.view.w b)
        (leaf_top desk.old.view (list_of desk.old at) b) tops.old tops.new) }
    ensures counted { OnOk result (RisesBy tally.old tally.new (points_of
        (sum_in b (leaf_cost desk.old.view (list_of desk.old at) b tops.old)))) }
    ensures none { OnErr result (tally.new ≡ tally.old) }
    ensures kept { desk.new ≡ desk.old }
{
    let list = desk.lists.list(at);
    make_rows(&mut desk.rows, list.len())?;
    let w = desk.places.w();
    draw_leaf(&desk.places, w, b, &list, &mut desk.rows, tops, tally);
    Ok(())
}
