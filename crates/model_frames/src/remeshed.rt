// The mesh of a solid over a view, after another mesh.
ghost use Rattle.std.specs.Prelude.{◌≡◌, length, Some, IfOk, OnOk};
ghost use Rattle.fixed_ops.specs.Points.{Point};
ghost use Rattle.live_clauses.specs.Live.{root_of};
ghost use Rattle.live_clauses.specs.Steps.{tape_value};
ghost use Rattle.solid_model.specs.Values.{solid_value};
ghost use Rattle.view_places.specs.Window.{FitsMesh};
ghost use Rattle.model_frames.specs.Meshes.{grid_before, mesh_text, meshed_text, plain_grid};
ghost use Rattle.model_frames.specs.Work.{CountsWithin, CountsWork, PointsRiseAtMost, grid_work, mesh_work_after};

use crate::redrawn::is_same;
use crate::render::window_holds;
use fixed_ops::Tally;
use grid_text::{TextRoom, grid_text_in};
use live_clauses::{RootRoom, Tape};
use oct_descent::{OctTree, cells, recells};
use solid_model::Model;
use std::alloc::{AllocError, Global};
use view_places::View;

/// The grid of a mesh of a model over a view, by its boxes, after another mesh, without its text. `room`
/// is memory for the model's list. What is counted is the work of those boxes and working cells alone
/// that the other mesh did not have with an equal list, where it had this very view, and else the work of
/// a fresh mesh. AllocError: memory was refused, after some of that work perhaps, and the boxes of the
/// other mesh are given up.
pub fn redraw_mesh(
    alloc: Global,
    room: &mut RootRoom,
    model: &Model,
    view: &View,
    before: Option<OctTree>,
    tally: &mut Tally,
) -> Result<OctTree, AllocError>
    requires { FitsMesh view.now }
    ensures tree { IfOk result (λ tree.
        tree ≡ record { view = view.now; list = root_of model.now }) }
    ensures text { IfOk result (λ tree. meshed_text (Some tree) ≡ mesh_text view.now model.now) }
    ensures counted { OnOk result
        (CountsWork tally.old tally.new (mesh_work_after before view.now model.now)) }
    ensures at_most { CountsWithin tally.old tally.new
        (mesh_work_after before view.now model.now) }
    ensures plain { PointsRiseAtMost tally.old tally.new
        (plain_grid view.now (length model.now)) }
{
    window_holds(view);
    let list = root_after(room, model, &before)?;
    look_after(alloc, &list, view, before, tally)
}

/// Makes the text of the mesh of a grid in a buffer, in place of what stood there. `room` is memory for
/// making it, which is made where there is none. AllocError: there is no memory for the text, what stands
/// in the buffer is of no use, and the other memory is given up.
pub fn mesh_text_in(
    alloc: Global,
    tree: &OctTree,
    room: &mut Option<TextRoom>,
    buffer: &mut Vec<u8>,
) -> Result<(), AllocError>
    ensures { OnOk result (buffer.new.items ≡ meshed_text (Some tree.now)) }
{
    grid_text_in(alloc, tree.grid(), room, buffer)
}

// The root list of a model: that of a mesh before, where it is equal.
fn root_after(
    room: &mut RootRoom,
    model: &Model,
    before: &Option<OctTree>,
) -> Result<Tape, AllocError>
    ensures live { IfOk result (λ list. list ≡ root_of model.now) }
    ensures value { IfOk result (λ list.
        (p : Point) → tape_value p list ≡ solid_value p model.now) }
{
    match before {
        Some(tree) => room.root(model, Some(tree.list())),
        None => room.root(model, None),
    }
}

// The boxes of the grid of a list over a view, after another one.
fn look_after(
    alloc: Global,
    list: &Tape,
    view: &View,
    before: Option<OctTree>,
    tally: &mut Tally,
) -> Result<OctTree, AllocError>
    requires { FitsMesh view.now }
    ensures tree { IfOk result (λ tree. tree ≡ record { view = view.now; list = list.now }) }
    ensures counted { OnOk result (CountsWork tally.old tally.new
        (grid_work (grid_before before view.now) view.now list.now 0)) }
    ensures at_most { CountsWithin tally.old tally.new
        (grid_work (grid_before before view.now) view.now list.now 0) }
{
    match before {
        Some(tree) => {
            if is_same(tree.view(), view) {
                recells(tree, list, tally)
            } else {
                // The boxes of the other view are given up before these are looked into.
                drop(tree);
                cells(alloc, list, view, tally)
            }
        }
        None => cells(alloc, list, view, tally),
    }
}
