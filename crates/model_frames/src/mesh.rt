// The mesh of a solid over a view.
ghost use Rattle.std.specs.Prelude.{◌≡◌, ◌<◌, ◌^◌, length, All, IfOk, OnOk};
ghost use Rattle.box_chains.specs.Tallied.{CountsAtMost};
ghost use Rattle.grid_text.specs.Texts.{text_of};
ghost use Rattle.kuhn_cells.specs.Lists.{ListsCells};
ghost use Rattle.live_clauses.specs.Steps.{tape_value};
ghost use Rattle.oct_descent.specs.Bound.{CountsAtLeast, CountsHullsAtLeast, mesh_least, mesh_long_spans, mesh_points, mesh_spans};
ghost use Rattle.ply_writer.specs.Ply.{ply_of};
ghost use Rattle.solid_model.specs.Values.{solid_value};
ghost use Rattle.tetra_mesh.specs.Cuts.{mesh_of};
ghost use Rattle.tetra_mesh.specs.Places.{IsPlaced};
ghost use Rattle.view_places.specs.Window.{FitsMesh, size_of};
ghost use Rattle.model_frames.specs.Meshes.{grid_of, mesh_text, plain_grid};
ghost use Rattle.model_frames.specs.SoundTexts.{MeshTextsAreSound};
ghost use Rattle.model_frames.specs.Work.{CountsWithin, CountsWork, PointsRiseAtMost, mesh_work};

use crate::render::window_holds;
use fixed_ops::Tally;
use kuhn_cells::CellList;
use live_clauses::{Tape, root_tape};
use oct_descent::{CellGrid, cell_grid, cell_list};
use solid_model::Model;
use std::alloc::{AllocError, Global};
use tetra_mesh::{Mesh, build_from};
use view_places::View;

// The grid of a model's root list over a view, the text of whose mesh is the model's. The work of the
// boxes that are looked into and of the corners of working cells is counted. AllocError: memory was
// refused, after some of that work perhaps.
pub(crate) fn solid_grid(
    alloc: Global,
    model: &Model,
    view: &View,
    tally: &mut Tally,
) -> Result<CellGrid, AllocError>
    requires { FitsMesh view.now }
    ensures text { IfOk result (λ grid. text_of grid.view grid.list ≡ mesh_text view.now model.now) }
    ensures counted { OnOk result
        (CountsWork tally.old tally.new (mesh_work view.now model.now)) }
    ensures at_most { CountsWithin tally.old tally.new (mesh_work view.now model.now) }
    ensures plain { PointsRiseAtMost tally.old tally.new (plain_grid view.now (length model.now)) }
{
    window_holds(view);
    let list = root_tape(alloc, model)?;
    cell_grid(alloc, &list, view, tally)
}

/// The mesh of a model over a view, whose text is the one that a session gives. The work of the boxes
/// that are looked into and of the corners of working cells is counted. AllocError: memory was
/// refused, after some of that work perhaps.
pub fn solid_mesh(
    alloc: Global,
    model: &Model,
    view: &View,
    tally: &mut Tally,
) -> Result<Mesh, AllocError>
    requires { FitsMesh view.now }
    ensures mesh { IfOk result (λ mesh.
        mesh ≡ mesh_of (grid_of view.now (λ p. solid_value p model.now))) }
    ensures text { IfOk result (λ mesh.
        ply_of view.now mesh.vertices mesh.faces ≡ mesh_text view.now model.now) }
    ensures placed { IfOk result (λ mesh. All (IsPlaced view.now) mesh.vertices) }
    ensures vertices { IfOk result (λ mesh. length mesh.vertices < 2 ^ 31) }
    ensures faces { IfOk result (λ mesh. length mesh.faces < 2 ^ 31) }
    ensures counted { OnOk result
        (CountsWork tally.old tally.new (mesh_work view.now model.now)) }
    ensures at_most { CountsWithin tally.old tally.new (mesh_work view.now model.now) }
    ensures plain { PointsRiseAtMost tally.old tally.new (plain_grid view.now (length model.now)) }
{
    window_holds(view);
    let list = root_tape(alloc, model)?;
    let cells = mixed_cells(alloc, &list, view, tally)?;
    // The list of cells is given up before the faces are made.
    build_from(alloc, cells, view)
}

// The mixed cells of the grid of a list over a view. The values of the grid are given up before the
// list is handed on.
fn mixed_cells(
    alloc: Global,
    list: &Tape,
    view: &View,
    tally: &mut Tally,
) -> Result<CellList, AllocError>
    requires { FitsMesh view.now }
    ensures cells { IfOk result (λ cells.
        ListsCells (size_of view.now) cells (grid_of view.now (λ p. tape_value p list.now))) }
    ensures at_most { CountsAtMost (mesh_points view.now list.now) (mesh_spans view.now list.now)
        tally.old tally.new }
    ensures at_least { OnOk result
        (CountsAtLeast (mesh_least view.now list.now) tally.old tally.new) }
    ensures traced { OnOk result
        (CountsHullsAtLeast (mesh_long_spans view.now list.now) tally.old tally.new) }
{
    let grid = cell_grid(alloc, list, view, tally)?;
    cell_list(alloc, &grid)
}

/// The text of the mesh of each solid is that of a sound mesh, over each view of which a mesh may be
/// made.
pub fn mesh_texts_are_sound()
    ensures { MeshTextsAreSound }
{}
