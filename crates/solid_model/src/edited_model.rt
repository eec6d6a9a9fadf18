// A model that is edited.
ghost use Rattle.std.specs.Prelude.{◌≡◌, ◌≢◌, [], ◌∷◌, true, false, IfErr, IfOk, OnErr, OnOk, Ok};
ghost use Rattle.solid_model.specs.Edited.{opening, AreAccepted, IsUndone};
ghost use Rattle.solid_model.specs.Edits.{edited, FirstMakesClause};
ghost use Rattle.solid_model.specs.Inverses.{inverse_of};
ghost use Rattle.solid_model.specs.Refusals.{RefusesAs, WantsMemoryFor};

use crate::reversal::Reversal;
use crate::{Edit, EditFault, EditRef, Model};
use std::alloc::{AllocError, Global};

/// A model that is edited, with what takes its edits back. Contracts see its clauses, and the edits that
/// take back those that were accepted, the latest first. What these lead back to is what it was opened
/// with, which no call changes.
#[derive(Debug, Drop)]
pub struct EditedModel {
    model: Model,
    // What takes the accepted edits back, the latest last.
    backs: Vec<Reversal>,
}

impl std::marker::Model for EditedModel {
    ghost use Rattle.std.specs.Prelude.{reverse};
    ghost use Rattle.solid_model.specs.Edited.{Edited};
    ghost use Rattle.solid_model.specs.Reversals.{edits_back, AllowBack};

    ghost Value = { Edited };

    ghost view = { λ m. record {
      clauses = m.model;
      undo = edits_back m.model (reverse m.backs.items);
    } };

    ghost invariant = { λ m. AllowBack m.model (reverse m.backs.items) };
}

impl EditedModel {
    /// A model that no edit was made of.
    pub fn start(alloc: Global, model: Model) -> EditedModel
        ensures { result ≡ record { clauses = model; undo = [] } }
    {
        EditedModel {
            model,
            backs: Vec::new(alloc),
        }
    }

    /// The model then standing. Each of the edits that take one back is accepted in its turn.
    #[inline]
    pub fn model(&self) -> &Model
        ensures model { result.now ≡ self.now.clauses }
        ensures accepted { AreAccepted self.now.clauses self.now.undo }
    {
        self.holds();
        &self.model
    }

    // Lets a proof know that each of the edits that take one back is accepted in its turn.
    #[inline]
    fn holds(&self)
        ensures { AreAccepted self.now.clauses self.now.undo }
    {
        let _len = self.model.len();
    }

    /// Applies a change, and puts the edit that takes it back before the others. After an `Err` all is as
    /// it was, and the change is dropped. The faults are those of `Model::apply`, but `NoMemory` may come
    /// for each change that is accepted.
    pub fn edit(&mut self, edit: &Edit) -> Result<(), EditFault>
        ensures ok { OnOk result (edited self.old.clauses edit.now ≡ Ok self.new.clauses) }
        ensures undo { OnOk result
            (self.new.undo ≡ inverse_of self.old.clauses edit.now ∷ self.old.undo) }
        ensures fault { RefusesAs (edited self.old.clauses edit.now) EditFault.NoMemory result }
        ensures no_memory { WantsMemoryFor (edited self.old.clauses edit.now) EditFault.NoMemory
            result }
        ensures not_undo { IfErr result (λ fault. fault ≢ EditFault.NothingToUndo) }
        ensures err { OnErr result (self.new ≡ self.old) }
        ensures opening { opening self.new ≡ opening self.old }
    {
        self.edit_lent(&edit.lent())
    }

    /// Applies a change whose names are lent, as `edit` does.
    pub fn edit_lent(&mut self, edit: &EditRef<'_>) -> Result<(), EditFault>
        ensures ok { OnOk result (edited self.old.clauses edit.now ≡ Ok self.new.clauses) }
        ensures undo { OnOk result
            (self.new.undo ≡ inverse_of self.old.clauses edit.now ∷ self.old.undo) }
        ensures fault { RefusesAs (edited self.old.clauses edit.now) EditFault.NoMemory result }
        ensures no_memory { WantsMemoryFor (edited self.old.clauses edit.now) EditFault.NoMemory
            result }
        ensures not_undo { IfErr result (λ fault. fault ≢ EditFault.NothingToUndo) }
        ensures err { OnErr result (self.new ≡ self.old) }
        ensures opening { opening self.new ≡ opening self.old }
    {
        self.model.apply_and_keep(edit, &mut self.backs)
    }

    /// Takes back the change that was accepted last, and says whether there was one. Each of the edits that
    /// take one back is accepted in its turn. AllocError: memory was refused for a clause that comes back.
    /// Then, and where there was none, all is as it was.
    pub fn undo(&mut self) -> Result<bool, AllocError>
        ensures accepted { AreAccepted self.old.clauses self.old.undo }
        ensures undone { IfOk result (λ some. some ≡ true → IsUndone self.old self.new) }
        ensures none { IfOk result (λ some. some ≡ false → (self.old.undo ≡ []) × (self.new ≡ self.old)) }
        ensures memory { OnErr result (FirstMakesClause self.old.undo) }
        ensures err { OnErr result (self.new ≡ self.old) }
        ensures opening { opening self.new ≡ opening self.old }
    {
        self.holds();
        let Some(back) = self.backs.last() else {
            return Ok(false);
        };
        self.model.revert(back)?;
        self.backs.pop();
        Ok(true)
    }
}
