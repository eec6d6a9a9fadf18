// A model that is edited and drawn.
ghost use Rattle.std.specs.Prelude.{◌≡◌, ◌≢◌, ◌↔◌, length, [], None, Ok, IfErr, IfOk, IsErrOf, OnErr, OnOk};
ghost use Rattle.clause_reader.specs.ModelText.{model_text};
ghost use Rattle.solid_model.specs.Edited.{AreAccepted, IsUndone};
ghost use Rattle.solid_model.specs.Edits.{edited, FirstMakesClause};
ghost use Rattle.solid_model.specs.Refusals.{RefusesAs, WantsMemoryFor};
ghost use Rattle.view_places.specs.Window.{FitsHeight, FitsMesh};
ghost use Rattle.model_frames.specs.Heights.{heights_of, plain_depths};
ghost use Rattle.model_frames.specs.Images.{drawn_text, image_of, plain_points};
ghost use Rattle.model_frames.specs.Meshes.{mesh_text, meshed_text, plain_grid};
ghost use Rattle.model_frames.specs.Work.{CountsWithin, CountsWork, PointsRiseAtMost, height_work, image_work, mesh_work_after};
ghost use Rattle.model_frames.specs.declared.frame.Frame.TheVariants as frames;
ghost use Rattle.quad_descent.specs.Rows.{AreRows, rows_at};
ghost use Rattle.edit_session.specs.Sessions.{after_edit, after_frame, after_refusal, model_of, opening_of, started, with_model};

use clause_reader::write_model;
use fixed_ops::Tally;
use grid_text::TextRoom;
use live_clauses::RootRoom;
use model_frames::{height_text, image_text, mesh_text_in, redraw_image, redraw_mesh};
use oct_descent::OctTree;
use quad_descent::{QuadTree, RowSource, rows};
use solid_model::{Edit, EditFault, EditRef, EditedModel, Model};
use std::alloc::{AllocError, Global};
use view_places::View;

/// A model that is edited and drawn. Each frame shows the model then standing, whatever was drawn
/// before. Contracts see the clauses of that model, the edits that take back those that were accepted, the
/// view and the root list of the last image and of the last mesh, where one stands, and the cost of that
/// image. No call changes what the edits that take one back lead to: what the session was opened with.
#[derive(Debug, Drop)]
pub struct Session {
    alloc: Global,
    // The model, with what takes its edits back.
    model: EditedModel,
    // The last image by its boxes, where none was refused since, and what it took.
    image: Option<QuadTree>,
    points: u64,
    spans: u64,
    // The last mesh by its boxes, where none was refused since.
    mesh: Option<OctTree>,
    // Memory for root lists.
    room: RootRoom,
    // Memory for the texts of meshes, once one was made.
    texts: Option<TextRoom>,
}

impl std::marker::Model for Session {
    ghost use Rattle.edit_session.specs.Sessions.{State};

    ghost Value = { State };

    ghost view = { λ s. record {
      clauses = s.model.clauses;
      undo = s.model.undo;
      image = s.image;
      mesh = s.mesh;
      cost = record { points = s.points; spans = s.spans };
    } };
}

impl Session {
    /// A session on a model. Its later calls take their memory from `alloc`.
    #[inline]
    pub fn start(alloc: Global, model: Model) -> Session
        ensures { result ≡ started model }
    {
        Session {
            alloc,
            model: EditedModel::start(alloc, model),
            image: None,
            points: 0,
            spans: 0,
            mesh: None,
            room: RootRoom::new(alloc),
            texts: None,
        }
    }

    /// Applies a change to the model, and keeps what takes it back. The last image with its cost and the
    /// last mesh stand. After an `Err` the session is as it was.
    ///
    /// The first of these that holds is answered. `UnknownName`: an argument, or a name that should
    /// stand already, names no clause. `DoubleName`: the new name stands already. `NotEarlier`: an
    /// argument stands at or after the place of the clause. `InUse`: another clause has this one as
    /// an argument. `LastClause`: the model has one clause. `Full`: the model has 65,535 clauses.
    /// `NoMemory`: memory was refused for the change or for what takes it back, and none of these holds.
    /// `NothingToUndo` is never answered.
    pub fn apply(&mut self, edit: &Edit) -> Result<(), EditFault>
        ensures ok { OnOk result (edited self.old.clauses edit.now ≡ Ok self.new.clauses) }
        ensures kept { OnOk result (self.new ≡ after_edit self.old edit.now self.new.clauses) }
        ensures stands { self.new ≡ with_model self.old (model_of self.new) }
        ensures fault { RefusesAs (edited self.old.clauses edit.now) EditFault.NoMemory result }
        ensures no_memory { WantsMemoryFor (edited self.old.clauses edit.now) EditFault.NoMemory result }
        ensures not_undo { IfErr result (λ fault. fault ≢ EditFault.NothingToUndo) }
        ensures err { OnErr result (self.new ≡ self.old) }
        ensures opening { opening_of self.new ≡ opening_of self.old }
    {
        self.apply_lent(&edit.lent())
    }

    /// Applies a change to the model, as `apply` does, whose names are lent.
    pub fn apply_lent(&mut self, edit: &EditRef<'_>) -> Result<(), EditFault>
        ensures ok { OnOk result (edited self.old.clauses edit.now ≡ Ok self.new.clauses) }
        ensures kept { OnOk result (self.new ≡ after_edit self.old edit.now self.new.clauses) }
        ensures stands { self.new ≡ with_model self.old (model_of self.new) }
        ensures fault { RefusesAs (edited self.old.clauses edit.now) EditFault.NoMemory result }
        ensures no_memory { WantsMemoryFor (edited self.old.clauses edit.now) EditFault.NoMemory result }
        ensures not_undo { IfErr result (λ fault. fault ≢ EditFault.NothingToUndo) }
        ensures err { OnErr result (self.new ≡ self.old) }
        ensures opening { opening_of self.new ≡ opening_of self.old }
    {
        self.model.edit_lent(edit)
    }

    /// Applies a change to the model, as `apply` does, and drops it.
    pub fn edit(&mut self, edit: Edit) -> Result<(), EditFault>
        ensures ok { OnOk result (edited self.old.clauses edit ≡ Ok self.new.clauses) }
        ensures kept { OnOk result (self.new ≡ after_edit self.old edit self.new.clauses) }
        ensures stands { self.new ≡ with_model self.old (model_of self.new) }
        ensures fault { RefusesAs (edited self.old.clauses edit) EditFault.NoMemory result }
        ensures no_memory { WantsMemoryFor (edited self.old.clauses edit) EditFault.NoMemory result }
        ensures not_undo { IfErr result (λ fault. fault ≢ EditFault.NothingToUndo) }
        ensures err { OnErr result (self.new ≡ self.old) }
        ensures opening { opening_of self.new ≡ opening_of self.old }
    {
        self.apply(&edit)
    }

    /// Takes back the edit that was accepted last. The last image with its cost and the last mesh stand,
    /// and no undo takes this one back. Each of the edits that take one back is accepted in its turn. After
    /// an `Err` the session is as it was.
    ///
    /// `NothingToUndo`: each edit that was accepted was taken back. `NoMemory`: memory was refused for a
    /// clause that comes back. No other fault is answered.
    pub fn undo(&mut self) -> Result<(), EditFault>
        ensures accepted { AreAccepted self.old.clauses self.old.undo }
        ensures undone { OnOk result (IsUndone (model_of self.old) (model_of self.new)) }
        ensures stands { self.new ≡ with_model self.old (model_of self.new) }
        ensures nothing { IsErrOf result EditFault.NothingToUndo ↔ self.old.undo ≡ [] }
        ensures fault { IfErr result (λ fault.
            fault ≢ EditFault.NoMemory → fault ≡ EditFault.NothingToUndo) }
        ensures memory { IsErrOf result EditFault.NoMemory → FirstMakesClause self.old.undo }
        ensures err { OnErr result (self.new ≡ self.old) }
        ensures opening { opening_of self.new ≡ opening_of self.old }
    {
        match self.model.undo() {
            Ok(true) => Ok(()),
            Ok(false) => Err(EditFault::NothingToUndo),
            Err(_) => Err(EditFault::NoMemory),
        }
    }

    /// The image of the model over a view, as PGM text. It is drawn as `draw_raster` does. AllocError:
    /// memory was refused, after some of its work perhaps. No last image stands then, and all else
    /// stands.
    pub fn render(&mut self, view: &View, tally: &mut Tally) -> Result<Vec<u8>, AllocError>
        ensures image { IfOk result (λ image. image.items ≡ image_of view.now self.old.clauses) }
        ensures drawn { OnOk result (self.new ≡ after_frame self.old (frames.Render view.now)) }
        ensures refused { OnErr result (self.new ≡ after_refusal self.old (frames.Render view.now)) }
        ensures counted { OnOk result (CountsWork tally.old tally.new
            (image_work self.old.image view.now self.old.clauses)) }
        ensures at_most { CountsWithin tally.old tally.new
            (image_work self.old.image view.now self.old.clauses) }
        ensures plain { PointsRiseAtMost tally.old tally.new
            (plain_points view.now (length self.old.clauses)) }
    {
        let (points, spans) = self.cost();
        self.draw_raster(view, tally)?;
        let text = self.last_text();
        if text.is_err() {
            self.give_up(points, spans);
        }
        text
    }

    /// Draws the image of the model over a view, without its bytes: `raster_rows` paints its rows. What
    /// is counted is the work of those boxes alone that the last image did not have with an equal list,
    /// where one of this very view stands, and else the work of a fresh image. It stands as the last
    /// image then, with that cost. AllocError: memory was refused, after some of that work perhaps. No
    /// last image stands then, and all else stands.
    #[tactic(auto, using(crate::proofs::Drawn::counted_apart))]
    pub fn draw_raster(&mut self, view: &View, tally: &mut Tally) -> Result<(), AllocError>
        ensures text { OnOk result
            (drawn_text self.new.image ≡ image_of view.now self.old.clauses) }
        ensures drawn { OnOk result (self.new ≡ after_frame self.old (frames.Render view.now)) }
        ensures refused { OnErr result (self.new ≡ after_refusal self.old (frames.Render view.now)) }
        ensures counted { OnOk result (CountsWork tally.old tally.new
            (image_work self.old.image view.now self.old.clauses)) }
        ensures at_most { CountsWithin tally.old tally.new
            (image_work self.old.image view.now self.old.clauses) }
        ensures plain { PointsRiseAtMost tally.old tally.new
            (plain_points view.now (length self.old.clauses)) }
    {
        let before = self.image.take();
        // The caller's tally may stand at its end, so the work is counted apart first.
        let mut own = Tally::new();
        let drawn = redraw_image(
            self.alloc,
            &mut self.room,
            self.model.model(),
            view,
            before,
            &mut own,
        );
        tally.join(&own);
        let tree = drawn?;
        self.points = own.points();
        self.spans = own.spans();
        self.image = Some(tree);
        Ok(())
    }

    /// Paints the rows of the last image from `row` on, as many as there are places for. They are those
    /// of the model that stood when it was drawn, whatever was edited since.
    pub fn raster_rows(&self, row: u32, pixels: &mut [u8])
        requires { AreRows self.now.image row (length pixels.old) }
        ensures { pixels.new ≡ rows_at self.now.image row (length pixels.old) }
    {
        if let Some(tree) = &self.image {
            rows(tree, row, pixels);
        }
    }

    // The bytes of the last image, and none where none stands. AllocError: memory was refused.
    fn last_text(&self) -> Result<Vec<u8>, AllocError>
        ensures { IfOk result (λ text. text.items ≡ drawn_text self.now.image) }
    {
        match &self.image {
            Some(tree) => image_text(self.alloc, tree.picture()),
            None => Ok(Vec::new(self.alloc)),
        }
    }

    // Gives up the last image, with its cost, before which this one stood.
    fn give_up(&mut self, points: u64, spans: u64)
        ensures { self.new ≡ record self.old {
          image = None;
          cost = record { points = points; spans = spans };
        } }
    {
        self.image = None;
        self.points = points;
        self.spans = spans;
    }

    /// The height map of the model over a view, as PGM text. The work of the samples that do not lie
    /// behind a top is counted. The session stays. AllocError: memory was refused, after some of that
    /// work perhaps.
    pub fn height(&mut self, view: &View, tally: &mut Tally) -> Result<Vec<u8>, AllocError>
        requires { FitsHeight view.now }
        ensures heights { IfOk result (λ text. text.items ≡ heights_of view.now self.old.clauses) }
        ensures stands { self.new ≡ self.old }
        ensures counted { OnOk result
            (CountsWork tally.old tally.new (height_work view.now self.old.clauses)) }
        ensures at_most { CountsWithin tally.old tally.new
            (height_work view.now self.old.clauses) }
        ensures plain { PointsRiseAtMost tally.old tally.new
            (plain_depths view.now (length self.old.clauses)) }
    {
        height_text(self.alloc, self.model.model(), view, tally)
    }

    /// The mesh of the model over a view, as PLY text. It is drawn as `draw_mesh` does. AllocError:
    /// memory was refused, after some of its work perhaps. No last mesh stands then, and all else stands.
    pub fn mesh(&mut self, view: &View, tally: &mut Tally) -> Result<Vec<u8>, AllocError>
        requires { FitsMesh view.now }
        ensures mesh { IfOk result (λ text. text.items ≡ mesh_text view.now self.old.clauses) }
        ensures drawn { OnOk result (self.new ≡ after_frame self.old (frames.Mesh view.now)) }
        ensures refused { OnErr result (self.new ≡ after_refusal self.old (frames.Mesh view.now)) }
        ensures counted { OnOk result (CountsWork tally.old tally.new
            (mesh_work_after self.old.mesh view.now self.old.clauses)) }
        ensures at_most { CountsWithin tally.old tally.new
            (mesh_work_after self.old.mesh view.now self.old.clauses) }
        ensures plain { PointsRiseAtMost tally.old tally.new
            (plain_grid view.now (length self.old.clauses)) }
    {
        self.draw_mesh(view, tally)?;
        let text = self.last_mesh();
        if text.is_err() {
            self.mesh = None;
        }
        text
    }

    /// Looks into the boxes of the mesh of the model over a view, without its text: `mesh_text_in` makes
    /// that. What is counted is the work of those boxes and working cells alone that the last mesh did
    /// not have with an equal list, where one of this very view stands, and else the work of a fresh
    /// mesh. It stands as the last mesh then. AllocError: memory was refused, after some of that work
    /// perhaps. No last mesh stands then, and all else stands.
    pub fn draw_mesh(&mut self, view: &View, tally: &mut Tally) -> Result<(), AllocError>
        requires { FitsMesh view.now }
        ensures text { OnOk result
            (meshed_text self.new.mesh ≡ mesh_text view.now self.old.clauses) }
        ensures drawn { OnOk result (self.new ≡ after_frame self.old (frames.Mesh view.now)) }
        ensures refused { OnErr result (self.new ≡ after_refusal self.old (frames.Mesh view.now)) }
        ensures counted { OnOk result (CountsWork tally.old tally.new
            (mesh_work_after self.old.mesh view.now self.old.clauses)) }
        ensures at_most { CountsWithin tally.old tally.new
            (mesh_work_after self.old.mesh view.now self.old.clauses) }
        ensures plain { PointsRiseAtMost tally.old tally.new
            (plain_grid view.now (length self.old.clauses)) }
    {
        let before = self.mesh.take();
        let tree = redraw_mesh(
            self.alloc,
            &mut self.room,
            self.model.model(),
            view,
            before,
            tally,
        )?;
        self.mesh = Some(tree);
        Ok(())
    }

    /// Makes the text of the last mesh in a buffer, in place of what stood there, and nothing where no
    /// mesh stands. It is that of the model that stood when the mesh was drawn, whatever was edited
    /// since. AllocError: memory was refused, and what stands in the buffer is of no use.
    pub fn mesh_text_in(&mut self, buffer: &mut Vec<u8>) -> Result<(), AllocError>
        ensures text { OnOk result (buffer.new.items ≡ meshed_text self.old.mesh) }
        ensures kept { self.new ≡ self.old }
    {
        match &self.mesh {
            Some(tree) => mesh_text_in(self.alloc, tree, &mut self.texts, buffer),
            None => {
                buffer.clear();
                Ok(())
            }
        }
    }

    // The text of the last mesh, and none where none stands. AllocError: memory was refused.
    fn last_mesh(&mut self) -> Result<Vec<u8>, AllocError>
        ensures text { IfOk result (λ text. text.items ≡ meshed_text self.old.mesh) }
        ensures kept { self.new ≡ self.old }
    {
        let mut text = Vec::new(self.alloc);
        self.mesh_text_in(&mut text)?;
        Ok(text)
    }

    /// The text of the model: a line for each clause. AllocError: memory was refused.
    pub fn text(&self) -> Result<Vec<u8>, AllocError>
        ensures { IfOk result (λ text. text.items ≡ model_text self.now.clauses) }
    {
        write_model(self.alloc, self.model.model())
    }

    /// What the last image that was drawn whole took: evaluations, and steps that were traced. Nothing
    /// before the first.
    #[inline]
    pub fn cost(&self) -> (u64, u64)
        ensures points { result.0 ≡ self.now.cost.points }
        ensures spans { result.1 ≡ self.now.cost.spans }
    {
        (self.points, self.spans)
    }
}

impl RowSource for Session {
    ghost image = { λ session. session.image };

    fn paint(&self, row: u32, pixels: &mut [u8]) {
        self.raster_rows(row, pixels);
    }
}
