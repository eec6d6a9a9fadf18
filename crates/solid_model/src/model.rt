// A solid as a list of clauses.
ghost use Rattle.std.specs.Prelude.{◌≡◌, ◌≢◌, ◌<◌, List, [], length, slice_get, IfErr, IfOk, IsOk, Ok, OnErr, OnOk};
ghost use Rattle.solid_model.specs.Clauses.{place_of, IsClauseAt, IsModel};
ghost use Rattle.solid_model.specs.Edits.{edited, MakesClause};
ghost use Rattle.solid_model.specs.declared.clause.Clause.{Clause};
ghost use Rattle.solid_model.specs.declared.edit.Edit.TheVariants.{Add};
ghost use Rattle.solid_model.specs.Inverses.{inverse_of};
ghost use Rattle.solid_model.specs.Refusals.{RefusesAs, WantsMemoryFor};
ghost use Rattle.solid_model.specs.Reversals.{edit_back, reverted, AllowsBack, IsKeptBack};
ghost use Rattle.solid_model.specs.Seen.{clause_seen};
ghost use Rattle.solid_model.specs.Tables.{clauses_in};

use crate::reversal::Reversal;
use crate::table::Table;
use crate::{ClauseRef, Edit, EditFault, EditRef, Form, Name};
use std::alloc::{AllocError, Global};

/// A solid: from 1 to 65,535 clauses of distinct names, each of whose operands stands before it.
/// The last one is the output.
#[derive(Debug, Drop)]
pub struct Model {
    table: Table,
}

impl std::marker::Model for Model {
    ghost use Rattle.std.specs.Prelude.{List};
    ghost use Rattle.solid_model.specs.declared.clause.Clause.{Clause};
    ghost use Rattle.solid_model.specs.Clauses.{IsModel};
    ghost use Rattle.solid_model.specs.Tables.{clauses_in};

    ghost Value = { List Clause };

    ghost view = { λ m. clauses_in m.table };

    ghost invariant = { λ m. IsModel (clauses_in m.table) };
}

impl Model {
    /// A model of one clause.
    ///
    /// `UnknownName`: the form has an argument. `NoMemory`: memory was refused, and the form has
    /// none.
    pub fn first(alloc: Global, name: Name, form: Form) -> Result<Model, EditFault>
        ensures ok { IfOk result (λ model. edited [] (Add name form) ≡ Ok model) }
        ensures fault { RefusesAs (edited [] (Add name form)) EditFault.NoMemory result }
        ensures no_memory { WantsMemoryFor (edited [] (Add name form)) EditFault.NoMemory result }
        ensures not_undo { IfErr result (λ fault. fault ≢ EditFault.NothingToUndo) }
        ensures no_argument { OnOk result (form.args ≡ []) }
        ensures argument { IfErr result (λ fault. fault ≢ EditFault.NoMemory
            → (fault ≡ EditFault.UnknownName) × (form.args ≢ [])) }
    {
        let mut table = Table::new(alloc);
        match table.apply(&Edit::Add(name, form).lent()) {
            Ok(()) => Ok(Model { table }),
            Err(fault) => Err(fault),
        }
    }

    /// Applies a change. After an `Err` the model is as it was, and the change is dropped.
    ///
    /// The first of these that holds is answered. `UnknownName`: an argument, or a name that should
    /// stand already, names no clause. `DoubleName`: the new name stands already. `NotEarlier`: an
    /// argument stands at or after the place of the clause. `InUse`: another clause has this one as
    /// an argument. `LastClause`: the model has one clause. `Full`: the model has 65,535 clauses.
    /// `NoMemory`: memory was refused for a new clause, and none of these holds.
    pub fn apply(&mut self, edit: Edit) -> Result<(), EditFault>
        ensures ok { OnOk result (edited self.old edit ≡ Ok self.new) }
        ensures fault { RefusesAs (edited self.old edit) EditFault.NoMemory result }
        ensures no_memory { WantsMemoryFor (edited self.old edit) EditFault.NoMemory result }
        ensures makes { IfErr result (λ fault. fault ≡ EditFault.NoMemory → MakesClause edit) }
        ensures not_undo { IfErr result (λ fault. fault ≢ EditFault.NothingToUndo) }
        ensures err { OnErr result (self.new ≡ self.old) }
    {
        self.table.apply(&edit.lent())
    }

    /// Whether the model accepts a change. Where it does not, the fault is the one that `apply` answers.
    /// No memory is asked for.
    pub fn check(&self, edit: &Edit) -> Result<(), EditFault>
        ensures ok { OnOk result (IsOk (edited self.now edit.now)) }
        ensures fault { IfErr result (λ fault. edited self.now edit.now ≡ Err fault) }
        ensures memory { IfErr result (λ fault. fault ≢ EditFault.NoMemory) }
        ensures not_undo { IfErr result (λ fault. fault ≢ EditFault.NothingToUndo) }
    {
        match self.table.change(&edit.lent()) {
            Ok(_) => Ok(()),
            Err(refusal) => Err(refusal.fault()),
        }
    }

    /// The edit that takes back a change which the model accepts: once both are applied, the model is as
    /// it was. AllocError: memory was refused.
    pub fn invert(&self, edit: &Edit) -> Result<Edit, AllocError>
        requires { IsOk (edited self.now edit.now) }
        ensures inverse { IfOk result (λ inverse. inverse ≡ inverse_of self.now edit.now) }
        ensures back { IfOk result (λ inverse. (new : List Clause) → edited self.now edit.now ≡ Ok new
            → edited new inverse ≡ Ok self.now) }
    {
        edit.holds();
        self.table.inverse(edit)
    }

    // Applies a change, and puts what takes it back behind others. After an `Err` the model and those are as
    // they were. It answers as `apply` does, but wants memory for each change that is accepted.
    pub(crate) fn apply_and_keep(
        &mut self,
        edit: &EditRef<'_>,
        backs: &mut Vec<Reversal>,
    ) -> Result<(), EditFault>
        ensures ok { OnOk result (edited self.old edit.now ≡ Ok self.new) }
        ensures kept { OnOk result
            (IsKeptBack self.old self.new edit.now backs.old.items backs.new.items) }
        ensures fault { RefusesAs (edited self.old edit.now) EditFault.NoMemory result }
        ensures no_memory { WantsMemoryFor (edited self.old edit.now) EditFault.NoMemory result }
        ensures err { OnErr result (self.new ≡ self.old) }
        ensures others { OnErr result (backs.new.items ≡ backs.old.items) }
    {
        self.table.apply_and_keep(edit, backs)
    }

    // Takes a change back. AllocError: memory was refused for a clause that comes back, and the model is as
    // it was.
    pub(crate) fn revert(&mut self, back: &Reversal) -> Result<(), AllocError>
        requires { AllowsBack self.old back.now }
        ensures ok { OnOk result (self.new ≡ reverted self.old back.now) }
        ensures edit { edited self.old (edit_back self.old back.now) ≡ Ok (reverted self.old back.now) }
        ensures makes { OnErr result (MakesClause (edit_back self.old back.now)) }
        ensures err { OnErr result (self.new ≡ self.old) }
    {
        self.table.revert(back)
    }

    // The model of a table, whose clauses are one.
    #[inline]
    pub(crate) fn of(table: Table) -> Model
        requires { IsModel (clauses_in table) }
        ensures { result ≡ clauses_in table }
    {
        Model { table }
    }

    /// How many clauses there are.
    #[inline]
    pub fn len(&self) -> u32
        ensures len { result ≡ length self.now }
        ensures model { IsModel self.now }
    {
        self.table.len() as u32
    }

    /// The clause at a place, whose operands stand before it.
    #[inline]
    pub fn clause(&self, at: u32) -> ClauseRef<'_>
        requires { at < length self.now }
        ensures clause { slice_get self.now at ≡ Some (clause_seen result) }
        ensures stands { IsClauseAt at (clause_seen result) }
    {
        self.table.clause(at as usize)
    }

    /// The place of the clause of this name, or `None` where no clause has it.
    #[inline]
    pub fn position(&self, name: &[u8]) -> Option<u32>
        ensures { result ≡ place_of self.now name.now }
    {
        self.table.position(name)
    }
}
