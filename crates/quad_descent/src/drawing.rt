// Images that are drawn box by box.
ghost use Rattle.std.specs.Prelude.{◌≡◌, ◌-◌, ◌*◌, false, length, IfOk, IfErr, OnOk, OnErr};
ghost use Rattle.box_chains.specs.Chains.{is_long as is_long_for};
ghost use Rattle.box_chains.specs.Desks.{MayTrace, list_of};
ghost use Rattle.fixed_ops.specs.Counts.{RisesBy, points_of};
ghost use Rattle.view_places.specs.declared.lattice.Lattice.TheVariants.{Raster};
ghost use Rattle.quad_descent.specs.Nodes.{rows_of};

use crate::boxes::Boxes;
use crate::leaf::leaf_rows;
use crate::node::Node;
use crate::old_tree::OldTree;
use box_chains::{Desk, LEAF, make_rows};
use box_descent::{Border, Found, Order, Plan, Visitor};
use fixed_ops::Tally;
use live_clauses::Tape;
use std::alloc::AllocError;
use view_places::IndexBox;

/// An image that is drawn box by box, after another one: a box that handed on an equal list to its halves
/// there is taken over with them.
#[derive(Drop)]
pub(crate) struct Drawer<'a> {
    /// The boxes that are drawn.
    pub boxes: Boxes,
    /// What is left of the tree before.
    pub before: OldTree<'a>,
}

/// What a box that is split is remembered by until its halves are drawn.
#[derive(Drop)]
pub(crate) struct Mark {
    /// The place of its node.
    pub place: usize,
    /// The list that it received, where lists are kept.
    pub received: Option<Tape>,
    /// The list that it received in the tree before, where that reached it.
    pub received_before: Option<Tape>,
}

impl<'a> Visitor for Drawer<'a> {
    ghost use Rattle.quad_descent.specs.Drawers.{drawing};

    type Mark = Mark;

    ghost meaning = { drawing };

    #[inline]
    fn plan(&self) -> Plan {
        Plan {
            leaf: LEAF,
            traces_leaves: true,
            prunes_inside: false,
            border: Border::Nowhere,
            order: Order::Ascending,
        }
    }

    #[inline]
    fn wants(&self, desk: &Desk, b: IndexBox) -> bool {
        true
    }

    #[inline]
    fn visit(
        &mut self,
        desk: &mut Desk,
        b: IndexBox,
        given: usize,
        found: Found,
        tally: &mut Tally,
    ) -> Result<(), AllocError> {
        self.before.give_up();
        match found {
            Found::Inside(_) => self.boxes.push(Node::Inside),
            Found::Outside | Found::Untraced => self.boxes.push(Node::Outside),
            Found::Ambiguous(pruned) => {
                let rows = rows_by(desk, b, pruned, tally)?;
                self.boxes.push(Node::Leaf(rows))
            }
        }
    }

    #[inline]
    fn open(
        &mut self,
        desk: &Desk,
        b: IndexBox,
        given: usize,
        pruned: usize,
    ) -> Result<Option<Mark>, AllocError> {
        if self.before.handed_on(&desk.lists.list(pruned)) {
            self.before.move_to(&mut self.boxes)?;
            return Ok(None);
        }
        let place = self.boxes.nodes.len();
        let received = self.boxes.push_split(&desk.lists, pruned)?;
        let received_before = self.before.open();
        Ok(Some(Mark {
            place,
            received,
            received_before,
        }))
    }

    #[inline]
    fn close(&mut self, mark: Mark) {
        let count = self.boxes.nodes.len();
        if mark.place < count {
            self.boxes.nodes[mark.place] = Node::Split(count - mark.place - 1);
        }
        self.boxes.received = mark.received;
        self.before.received = mark.received_before;
    }
}

// The rows of a leaf by the list of a number. AllocError: there is no memory for the values of the list,
// and nothing was evaluated.
#[inline]
fn rows_by(
    desk: &mut Desk,
    b: IndexBox,
    at: usize,
    tally: &mut Tally,
) -> Result<[u8; 8], AllocError>
    requires may { MayTrace Raster desk.old b at }
    requires short { is_long_for 8 b ≡ false }
    ensures rows { IfOk result (λ rows. rows ≡ rows_of desk.old.view Raster (list_of desk.old at) b) }
    ensures counted { OnOk result (RisesBy tally.old tally.new
        (points_of ((b.y1 - b.y0) * ((b.x1 - b.x0) * length (list_of desk.old at))))) }
    ensures none { OnErr result (tally.new ≡ tally.old) }
    ensures kept { desk.new ≡ desk.old }
{
    let list = desk.lists.list(at);
    make_rows(&mut desk.rows, list.len())?;
    Ok(leaf_rows(&desk.places, b, &list, &mut desk.rows, tally))
}
