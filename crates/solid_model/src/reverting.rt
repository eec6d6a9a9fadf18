// Edits that are taken back.
ghost use Rattle.std.specs.Prelude.{◌≡◌, [], ◌∷◌, ◌++◌, Ok, IfOk, OnErr, OnOk};
ghost use Rattle.solid_model.specs.Changes.{done, surgery, Allows};
ghost use Rattle.solid_model.specs.Clauses.{AreClauses, AreInOrder};
ghost use Rattle.solid_model.specs.Edits.{IsEdit, MakesClause};
ghost use Rattle.solid_model.specs.Refusals.{RefusesAs, WantsMemoryFor};
ghost use Rattle.solid_model.specs.Reversals.{edit_back, reversal_of, reverted, AllowsBack, IsMadeAndKept};
ghost use Rattle.solid_model.specs.Tables.{clauses_in};

use crate::change::Change;
use crate::reversal::Reversal;
use crate::table::Table;
use crate::{EditFault, EditRef};
use std::alloc::AllocError;

impl Table {
    // What takes back a change that the clauses allow. AllocError: memory was refused.
    fn reversal(&self, change: &Change<'_>) -> Result<Reversal, AllocError>
        requires in_order { AreInOrder (clauses_in self.now) }
        requires allowed { Allows (clauses_in self.now) change.now }
        ensures { IfOk result (λ back. back ≡ reversal_of (clauses_in self.now) change.now) }
    {
        match change {
            Change::Write(at, _) => Ok(Reversal::Write(*at, self.clause(*at as usize).form())),
            Change::Insert(at, _) => Ok(Reversal::Remove(*at)),
            Change::Remove(at) => {
                let name = self.name(*at as usize)?;
                Ok(Reversal::Insert(*at, name, self.clause(*at as usize).form()))
            }
        }
    }

    // Makes an edit, and puts what takes it back behind others, or leaves both as they are.
    pub(crate) fn apply_and_keep(
        &mut self,
        edit: &EditRef<'_>,
        backs: &mut Vec<Reversal>,
    ) -> Result<(), EditFault>
        requires in_order { AreInOrder (clauses_in self.old) }
        ensures ok { OnOk result (surgery (clauses_in self.old) edit.now
            ≡ Ok (clauses_in self.new)) }
        ensures kept { OnOk result (IsMadeAndKept (clauses_in self.old) (clauses_in self.new)
            edit.now backs.old.items backs.new.items) }
        ensures fault { RefusesAs (surgery (clauses_in self.old) edit.now) EditFault.NoMemory
            result }
        ensures no_memory { WantsMemoryFor (surgery (clauses_in self.old) edit.now)
            EditFault.NoMemory result }
        ensures err { OnErr result (clauses_in self.new ≡ clauses_in self.old) }
        ensures others { OnErr result (backs.new.items ≡ backs.old.items) }
        ensures edit { IsEdit edit.now }
    {
        match self.change(edit) {
            Ok(change) => match self.make_and_keep(&change, backs) {
                Ok(()) => Ok(()),
                Err(_) => Err(EditFault::NoMemory),
            },
            Err(refusal) => {
                self.keep(&refusal);
                Err(refusal.fault())
            }
        }
    }

    // Makes a change that the clauses allow, and puts what takes it back behind others. All memory is taken
    // before anything changes. AllocError: memory was refused, and all is as it was.
    fn make_and_keep(
        &mut self,
        change: &Change<'_>,
        backs: &mut Vec<Reversal>,
    ) -> Result<(), AllocError>
        requires in_order { AreInOrder (clauses_in self.old) }
        requires allowed { Allows (clauses_in self.old) change.now }
        ensures ok { OnOk result (clauses_in self.new ≡ done (clauses_in self.old) change.now) }
        ensures kept { OnOk result (backs.new.items
            ≡ backs.old.items ++ reversal_of (clauses_in self.old) change.now ∷ []) }
        ensures err { OnErr result (clauses_in self.new ≡ clauses_in self.old) }
        ensures others { OnErr result (backs.new.items ≡ backs.old.items) }
    {
        let back = self.reversal(change)?;
        backs.reserve(1)?;
        if self.make(change).is_err() {
            return Err(AllocError);
        }
        backs.push_reserved(back);
        Ok(())
    }

    // Takes a change back. AllocError: memory was refused for a clause that comes back, and the clauses
    // are as they were.
    pub(crate) fn revert(&mut self, back: &Reversal) -> Result<(), AllocError>
        requires clauses { AreClauses (clauses_in self.old) }
        requires allowed { AllowsBack (clauses_in self.old) back.now }
        ensures ok { OnOk result (clauses_in self.new ≡ reverted (clauses_in self.old) back.now) }
        ensures makes { OnErr result (MakesClause (edit_back (clauses_in self.old) back.now)) }
        ensures err { OnErr result (clauses_in self.new ≡ clauses_in self.old) }
    {
        match back {
            Reversal::Write(at, form) => {
                self.write(*at as usize, form);
                Ok(())
            }
            Reversal::Insert(at, name, form) => {
                let clause = form.named(name.bytes());
                match self.insert(*at as usize, &clause) {
                    Ok(()) => Ok(()),
                    Err(_) => Err(AllocError),
                }
            }
            Reversal::Remove(at) => {
                self.remove(*at);
                Ok(())
            }
        }
    }
}
