// Images that are drawn.
ghost use Rattle.std.specs.Prelude.{◌≡◌, ◌≢◌, [], ◌∷◌, length, Some, None, IfOk, IfSome, IsTrue, OnOk, OnErr};
ghost use Rattle.box_chains.specs.Tallied.{CountsAtMost, CountsExactly};
ghost use Rattle.box_chains.specs.Visits.{IsVisit};
ghost use Rattle.quad_descent.specs.Adding.{IsDrawn};
ghost use Rattle.quad_descent.specs.Nodes.{nodes_of};
ghost use Rattle.quad_descent.specs.OldTrees.{StandNext};
ghost use Rattle.quad_descent.specs.Raster.{frame_points, frame_spans, fresh_points, fresh_spans, raster, raster_root};
ghost use Rattle.view_places.specs.Spans.{root_box_of};

use crate::boxes::Boxes;
use crate::drawing::Drawer;
use crate::node::Node;
use crate::old_lists::OldLists;
use crate::old_tree::OldTree;
use crate::{Picture, QuadTree};
use box_chains::Desk;
use box_descent::descend;
use fixed_ops::Tally;
use live_clauses::{Tape, same};
use std::alloc::{AllocError, Global};
use view_places::{Lattice, View};

/// Draws a list of steps over a view, as an image that is not drawn anew. Each step that is traced over
/// a box is counted, at most four corners with it, and each step that is evaluated at a sample:
/// exactly those of a fresh image. AllocError: there is no memory for it.
pub fn draw_picture(
    alloc: Global,
    list: &Tape,
    view: &View,
    tally: &mut Tally,
) -> Result<Picture, AllocError>
    ensures picture { IfOk result (λ picture. picture
        ≡ record { view = view.now; list = list.now }) }
    ensures counted { OnOk result
        (CountsExactly (fresh_points view.now list.now) (fresh_spans view.now list.now) tally.old
        tally.new) }
    ensures at_most { OnErr result
        (CountsAtMost (fresh_points view.now list.now) (fresh_spans view.now list.now) tally.old
        tally.new) }
{
    let (boxes, _) = draw_fresh(alloc, list, view, false, tally)?;
    picture_of(boxes.nodes, list, view)
}

/// Draws a list of steps over a view, as an image that may be drawn anew. The work of a fresh image is
/// counted, as `draw_picture` does. AllocError: there is no memory for the tree.
pub fn draw(
    alloc: Global,
    list: &Tape,
    view: &View,
    tally: &mut Tally,
) -> Result<QuadTree, AllocError>
    ensures tree { IfOk result (λ tree. tree ≡ record { view = view.now; list = list.now }) }
    ensures counted { OnOk result
        (CountsExactly (fresh_points view.now list.now) (fresh_spans view.now list.now) tally.old
        tally.new) }
    ensures at_most { OnErr result
        (CountsAtMost (fresh_points view.now list.now) (fresh_spans view.now list.now) tally.old
        tally.new) }
{
    let (boxes, desk) = draw_fresh(alloc, list, view, true, tally)?;
    tree_of(boxes, desk, list, view)
}

/// Draws an image anew, of another list of steps. What is counted is the work of those boxes alone that
/// the image did not have with an equal list, and of the samples in them. AllocError: there is no
/// memory for the new tree, and the old one is given up.
pub fn redraw(old: QuadTree, list: &Tape, tally: &mut Tally) -> Result<QuadTree, AllocError>
    ensures tree { IfOk result (λ tree. tree ≡ record { view = old.view; list = list.now }) }
    ensures counted { OnOk result
        (CountsExactly (frame_points old.view (Some old.list) list.now)
        (frame_spans old.view (Some old.list) list.now) tally.old tally.new) }
    ensures at_most { OnErr result
        (CountsAtMost (frame_points old.view (Some old.list) list.now)
        (frame_spans old.view (Some old.list) list.now) tally.old tally.new) }
{
    image_holds(old.view(), list);
    if same(old.list(), list) {
        Ok(old)
    } else {
        draw_after(old, list, tally)
    }
}

// The boxes of a fresh image of a list over a view, with the desk that they were drawn at. AllocError:
// there is no memory for them.
fn draw_fresh(
    alloc: Global,
    list: &Tape,
    view: &View,
    keeps: bool,
    tally: &mut Tally,
) -> Result<(Boxes, Desk), AllocError>
    ensures drawn { IfOk result (λ made. IsDrawn view.now list.now made.0) }
    ensures keeps { IfOk result (λ made. made.0.keeps ≡ keeps) }
    ensures view { IfOk result (λ made. made.1.view ≡ view.now) }
    ensures lattice { IfOk result (λ made. made.1.lattice ≡ Lattice.Raster) }
    ensures counted { OnOk result
        (CountsExactly (frame_points view.now None list.now) (frame_spans view.now None list.now)
        tally.old tally.new) }
    ensures at_most { OnErr result
        (CountsAtMost (frame_points view.now None list.now) (frame_spans view.now None list.now)
        tally.old tally.new) }
{
    let mut desk = Desk::new(alloc, view, Lattice::Raster, list)?;
    let before = OldTree {
        nodes: &[],
        lists: OldLists::new(Vec::new(alloc)),
        received: None,
    };
    let boxes = Boxes::new(alloc, list, keeps, 0)?;
    let boxes = draw_boxes(&mut desk, list, view, Drawer { boxes, before }, tally)?;
    Ok((boxes, desk))
}

// The image of another list over the view of an image, after that. Its lists are given up as they are
// read. AllocError: there is no memory for it.
fn draw_after(old: QuadTree, list: &Tape, tally: &mut Tally) -> Result<QuadTree, AllocError>
    requires { old.list ≢ list.now }
    ensures tree { IfOk result (λ tree. tree ≡ record { view = old.view; list = list.now }) }
    ensures counted { OnOk result
        (CountsExactly (frame_points old.view (Some old.list) list.now)
        (frame_spans old.view (Some old.list) list.now) tally.old tally.new) }
    ensures at_most { OnErr result
        (CountsAtMost (frame_points old.view (Some old.list) list.now)
        (frame_spans old.view (Some old.list) list.now) tally.old tally.new) }
{
    let QuadTree {
        picture,
        lists,
        desk,
    } = old;
    let alloc = *lists.allocator();
    let mut desk = desk.restart(list)?;
    let nodes = &picture.nodes;
    // An image has about as many boxes as the one before it.
    let boxes = Boxes::new(alloc, list, true, nodes.len())?;
    let before = OldTree {
        nodes,
        lists: OldLists::new(lists),
        received: Some(picture.list.share()?),
    };
    let view = &picture.view;
    let boxes = draw_boxes(&mut desk, list, view, Drawer { boxes, before }, tally)?;
    tree_of(boxes, desk, list, view)
}

// The boxes of an image of a list over a view, which a drawer draws from the start on. The desk was made
// for the list.
fn draw_boxes(
    desk: &mut Desk,
    list: &Tape,
    view: &View,
    drawer: Drawer<'_>,
    tally: &mut Tally,
) -> Result<Boxes, AllocError>
    requires desk { desk.old ≡ record {
      view = view.now;
      lattice = Lattice.Raster;
      room = length list.now;
      lists = list.now ∷ [];
    } }
    requires nodes { drawer.boxes.nodes.items ≡ [] }
    requires lists { drawer.boxes.lists.items ≡ [] }
    requires old { StandNext (raster view.now) (root_box_of view.now Lattice.Raster ∷ []) drawer.before }
    requires new { drawer.before.received ≢ Some list.now }
    ensures drawn { IfOk result (IsDrawn view.now list.now) }
    ensures desk { desk.new ≡ desk.old }
    ensures keeps { IfOk result (λ boxes. boxes.keeps ≡ drawer.entry.boxes.keeps) }
    ensures counted { OnOk result
        (CountsExactly (frame_points view.now drawer.entry.before.received list.now)
        (frame_spans view.now drawer.entry.before.received list.now) tally.old tally.new) }
    ensures at_most { OnErr result
        (CountsAtMost (frame_points view.now drawer.entry.before.received list.now)
        (frame_spans view.now drawer.entry.before.received list.now) tally.old tally.new) }
{
    let _len = list.len();
    let _width = view.w;
    let root = desk.root();
    let mut drawer = drawer;
    // The list that the desk was made with has the number 0.
    descend(desk, 0, &[root], &mut drawer, tally)?;
    Ok(drawer.boxes)
}

// The tree of boxes that were drawn, with their lists. AllocError: there is no memory to share the list.
fn tree_of(boxes: Boxes, desk: Desk, list: &Tape, view: &View) -> Result<QuadTree, AllocError>
    requires view { desk.view ≡ view.now }
    requires lattice { desk.lattice ≡ Lattice.Raster }
    requires drawn { IsDrawn view.now list.now boxes }
    requires keeps { IsTrue boxes.keeps }
    ensures { IfOk result (λ tree. tree ≡ record { view = view.now; list = list.now }) }
{
    let picture = picture_of(boxes.nodes, list, view)?;
    Ok(QuadTree {
        picture,
        lists: boxes.lists,
        desk,
    })
}

// The image whose nodes these are. AllocError: there is no memory to share the list.
fn picture_of(nodes: Vec<Node>, list: &Tape, view: &View) -> Result<Picture, AllocError>
    requires nodes { nodes.items ≡ nodes_of (raster view.now) (raster_root view.now list.now) }
    ensures { IfOk result (λ picture. picture ≡ record { view = view.now; list = list.now }) }
{
    image_holds(view, list);
    Ok(Picture {
        view: *view,
        list: list.share()?,
        nodes,
    })
}

// Lets a proof know that the box of all samples of a view may receive a list.
#[inline]
fn image_holds(view: &View, list: &Tape)
    ensures { IsVisit (raster view.now) (raster_root view.now list.now) }
{
    let _width = view.w;
    let _len = list.len();
}
