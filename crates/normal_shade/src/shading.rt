// Height maps that are shaded box by box.
ghost use Rattle.std.specs.Prelude.{◌≡◌, ◌≤◌, length, OnOk, OnErr};
ghost use Rattle.box_chains.specs.Desks.{list_of};
ghost use Rattle.box_descent.specs.Founds.{tape_of};
ghost use Rattle.fixed_ops.specs.Counts.{RisesBy, points_of};
ghost use Rattle.height_map.specs.Bound.{layered};
ghost use Rattle.height_map.specs.Columns.{Changes};
ghost use Rattle.height_map.specs.Desks.{MayDraw};
ghost use Rattle.normal_shade.specs.Lit.{lit_in};
ghost use Rattle.normal_shade.specs.Marks.{has_top_at, is_marked, shade_at};

use crate::lighting::light_tops;
use crate::scratch::Scratch;
use crate::tops::has_top;
use box_chains::{Desk, LEAF};
use box_descent::{Border, Found, Order, Plan, Visitor};
use fixed_ops::Tally;
use std::alloc::AllocError;
use view_places::IndexBox;

/// A picture of a height map with these tops, which is lit box by box: each column by the list that the
/// last box on the way to its top sample prunes.
#[derive(Drop)]
pub(crate) struct Shader<'a> {
    /// The tops, row by row.
    pub tops: &'a [u16],
    /// The light on them.
    pub pixels: Vec<u8>,
    /// Memory for dual numbers.
    pub scratch: Scratch,
}

impl<'a> Visitor for Shader<'a> {
    ghost use Rattle.normal_shade.specs.Shaders.{shading};

    type Mark = ();

    ghost meaning = { shading };

    #[inline]
    fn plan(&self) -> Plan {
        Plan {
            leaf: LEAF,
            traces_leaves: true,
            prunes_inside: true,
            border: Border::Nowhere,
            order: Order::Ascending,
        }
    }

    #[inline]
    fn wants(&self, desk: &Desk, b: IndexBox) -> bool {
        has_top(desk.w(), b, self.tops)
    }

    #[inline]
    fn visit(
        &mut self,
        desk: &mut Desk,
        b: IndexBox,
        given: usize,
        found: Found,
        tally: &mut Tally,
    ) -> Result<(), AllocError> {
        let tape = found.tape_or(given);
        let Shader {
            tops,
            pixels,
            scratch,
        } = self;
        light_box(desk, b, tape, tops, scratch, pixels, tally)
    }

    #[inline]
    fn open(
        &mut self,
        desk: &Desk,
        b: IndexBox,
        given: usize,
        pruned: usize,
    ) -> Result<Option<()>, AllocError> {
        Ok(Some(()))
    }

    #[inline]
    fn close(&mut self, mark: ()) {}
}

// Gives each column that has its top sample in a box the light there, by the list of a number. AllocError:
// there is no memory for its dual numbers, and nothing was lit.
#[inline]
fn light_box(
    desk: &Desk,
    b: IndexBox,
    at: usize,
    tops: &[u16],
    scratch: &mut Scratch,
    pixels: &mut [u8],
    tally: &mut Tally,
) -> Result<(), AllocError>
    requires may { MayDraw desk.now b at (length tops.now) }
    requires picture { length pixels.old ≡ length tops.now }
    ensures pixels { OnOk result (Changes (has_top_at desk.now.view.w tops.now b)
        (λ p old. shade_at desk.now.view (list_of desk.now at) tops.now p)
        pixels.old pixels.new) }
    ensures counted { OnOk result (RisesBy tally.old tally.new (points_of
        (lit_in (is_marked desk.now.view.w tops.now) (layered desk.now.view) b
        (list_of desk.now at)))) }
    ensures none { OnErr result (tally.new ≡ tally.old) }
{
    let w = desk.places.w();
    let list = desk.lists.list(at);
    scratch.make_room(list.len() as usize)?;
    light_tops(&desk.places, w, b, &list, tops, scratch, pixels, tally);
    Ok(())
}
