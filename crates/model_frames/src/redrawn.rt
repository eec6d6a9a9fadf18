// The image of a solid over a view, after another image.
ghost use Rattle.std.specs.Prelude.{◌≡◌, length, Some, IfOk, IsTrue, OnErr, OnOk};
ghost use Rattle.box_chains.specs.Tallied.{CountsAtMost, CountsExactly};
ghost use Rattle.fixed_ops.specs.Points.{Point};
ghost use Rattle.live_clauses.specs.Live.{root_of};
ghost use Rattle.live_clauses.specs.Steps.{tape_value};
ghost use Rattle.quad_descent.specs.Raster.{frame_points, frame_spans};
ghost use Rattle.solid_model.specs.Values.{solid_value};
ghost use Rattle.view_places.specs.Window.{same_view};
ghost use Rattle.model_frames.specs.Images.{drawn_text, image_of, list_before, plain_points};
ghost use Rattle.model_frames.specs.Work.{CountsWithin, CountsWork, FitsCounts, PointsRiseAtMost, image_work};

use crate::render::window_holds;
use fixed_ops::Tally;
use live_clauses::{RootRoom, Tape};
use quad_descent::{QuadTree, draw, redraw};
use solid_model::Model;
use std::alloc::{AllocError, Global};
use view_places::View;

/// The boxes of an image of a model over a view, after another image, without its bytes. Its rows are
/// those of the model. `room` is memory for the model's list. What is counted is the work of those boxes
/// alone that the other image did not have with an equal list, where it had this very view, and else the
/// work of a fresh image. AllocError: memory was refused, after some of that work perhaps, and the boxes
/// of the other image are given up.
pub fn redraw_image(
    alloc: Global,
    room: &mut RootRoom,
    model: &Model,
    view: &View,
    before: Option<QuadTree>,
    tally: &mut Tally,
) -> Result<QuadTree, AllocError>
    ensures tree { IfOk result (λ tree.
        tree ≡ record { view = view.now; list = root_of model.now }) }
    ensures text { IfOk result (λ tree. drawn_text (Some tree) ≡ image_of view.now model.now) }
    ensures fits { OnOk result (FitsCounts (image_work before view.now model.now)) }
    ensures counted { OnOk result
        (CountsWork tally.old tally.new (image_work before view.now model.now)) }
    ensures at_most { CountsWithin tally.old tally.new (image_work before view.now model.now) }
    ensures plain { PointsRiseAtMost tally.old tally.new
        (plain_points view.now (length model.now)) }
{
    window_holds(view);
    let list = root_after(room, model, &before)?;
    draw_after(alloc, &list, view, before, tally)
}

// The root list of a model: that of an image before, where it is equal.
fn root_after(
    room: &mut RootRoom,
    model: &Model,
    before: &Option<QuadTree>,
) -> Result<Tape, AllocError>
    ensures live { IfOk result (λ list. list ≡ root_of model.now) }
    ensures value { IfOk result (λ list.
        (p : Point) → tape_value p list ≡ solid_value p model.now) }
{
    match before {
        Some(tree) => room.root(model, Some(tree.list())),
        None => room.root(model, None),
    }
}

// The boxes of an image of a list over a view, after another one.
fn draw_after(
    alloc: Global,
    list: &Tape,
    view: &View,
    before: Option<QuadTree>,
    tally: &mut Tally,
) -> Result<QuadTree, AllocError>
    ensures tree { IfOk result (λ tree. tree ≡ record { view = view.now; list = list.now }) }
    ensures counted { OnOk result
        (CountsExactly (frame_points view.now (list_before before view.now) list.now)
        (frame_spans view.now (list_before before view.now) list.now) tally.old tally.new) }
    ensures at_most { OnErr result
        (CountsAtMost (frame_points view.now (list_before before view.now) list.now)
        (frame_spans view.now (list_before before view.now) list.now) tally.old tally.new) }
{
    match before {
        Some(tree) => {
            if is_same(tree.view(), view) {
                redraw(tree, list, tally)
            } else {
                // The boxes of the other view are given up before these are drawn.
                drop(tree);
                draw(alloc, list, view, tally)
            }
        }
        None => draw(alloc, list, view, tally),
    }
}

// Whether two views are one.
pub(crate) fn is_same(a: &View, b: &View) -> bool
    ensures test { result ≡ same_view a.now b.now }
    ensures same { IsTrue result → a.now ≡ b.now }
{
    a == b
}
