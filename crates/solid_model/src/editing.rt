// What edits do to the clauses of a table, by places.
ghost use Rattle.std.specs.Prelude.{◌≡◌, ◌≢◌, IfErr, IfOk, MatchResult};
ghost use Rattle.std.specs.Option.{option_map};
ghost use Rattle.solid_model.specs.Adding.{added, clause_after, operand};
ghost use Rattle.solid_model.specs.Changes.{done, fault_of, surgery, Allows, DoesEdit, PutsIn, TellsUser};
ghost use Rattle.solid_model.specs.declared.edit.Edit.TheVariants.{Add, Cut, Put, Set};
ghost use Rattle.solid_model.specs.Clauses.{AreInOrder};
ghost use Rattle.solid_model.specs.Edits.{IsEdit, MakesClause};
ghost use Rattle.solid_model.specs.LentArgs.{args_seen};
ghost use Rattle.solid_model.specs.Parts.{IsForm};
ghost use Rattle.solid_model.specs.Seen.{clause_seen};
ghost use Rattle.solid_model.specs.Surgery.{formed, put_in, taken_out};
ghost use Rattle.solid_model.specs.Tables.{clauses_in};

use crate::change::Change;
use crate::edit_ref::LentEdit;
use crate::refusal::Refusal;
use crate::table::{MOST, Table};
use crate::{ArgsRef, ClauseRef, EditFault, EditRef, FormRef};

impl Table {
    // What an edit does, or why it is refused. Nothing is changed, and no memory is asked for.
    pub(crate) fn change<'e>(&self, edit: &EditRef<'e>) -> Result<Change<'e>, Refusal>
        requires in_order { AreInOrder (clauses_in self.now) }
        ensures change { MatchResult result
            (λ change. surgery (clauses_in self.now) edit.now
            ≡ Ok (done (clauses_in self.now) change))
            (λ refusal. surgery (clauses_in self.now) edit.now ≡ Err (fault_of refusal)) }
        ensures memory { IfErr result (λ refusal. fault_of refusal ≢ EditFault.NoMemory) }
        ensures user { IfErr result (TellsUser (clauses_in self.now)) }
        ensures allowed { IfOk result (λ change. Allows (clauses_in self.now) change) }
        ensures puts { IfOk result (λ change. PutsIn change → MakesClause edit.now) }
        ensures does { IfOk result (λ change. DoesEdit (clauses_in self.now) edit.now change) }
        ensures edit { IsEdit edit.now }
    {
        match edit.lent() {
            LentEdit::Set(name, form) => self.setting(name, form),
            LentEdit::Add(name, form) => self.adding(name, form),
            LentEdit::Put(next, name, form) => self.putting(next, name, form),
            LentEdit::Cut(name) => self.cutting(name),
        }
    }

    // The clause of this name gets another form.
    fn setting<'e>(&self, name: &'e [u8], form: &FormRef<'_>) -> Result<Change<'e>, Refusal>
        ensures change { MatchResult result
            (λ change. formed (clauses_in self.now) name.now form.now
            ≡ Ok (done (clauses_in self.now) change))
            (λ refusal. formed (clauses_in self.now) name.now form.now ≡ Err (fault_of refusal)) }
        ensures memory { IfErr result (λ refusal. fault_of refusal ≢ EditFault.NoMemory) }
        ensures user { IfErr result (TellsUser (clauses_in self.now)) }
        ensures allowed { IfOk result (λ change. Allows (clauses_in self.now) change) }
        ensures puts { IfOk result (λ change. ¬ PutsIn change) }
        ensures does { IfOk result (λ change. DoesEdit (clauses_in self.now)
            (Set name.now form.now) change) }
        ensures form { IsForm form.now }
    {
        let formed = self.clause_after(name, form);
        let at = self
            .position(name)
            .ok_or(Refusal::Plain(EditFault::UnknownName))?;
        let Some(clause) = formed else {
            return Err(Refusal::Plain(EditFault::UnknownName));
        };
        if !clause.reads_before(at) {
            return Err(Refusal::Plain(EditFault::NotEarlier));
        }
        Ok(Change::Write(at, clause))
    }

    // A clause of this name and form goes last.
    fn adding<'e>(&self, name: &'e [u8], form: &FormRef<'_>) -> Result<Change<'e>, Refusal>
        requires in_order { AreInOrder (clauses_in self.now) }
        ensures change { MatchResult result
            (λ change. added (clauses_in self.now) name.now form.now
            ≡ Ok (done (clauses_in self.now) change))
            (λ refusal. added (clauses_in self.now) name.now form.now ≡ Err (fault_of refusal)) }
        ensures memory { IfErr result (λ refusal. fault_of refusal ≢ EditFault.NoMemory) }
        ensures user { IfErr result (TellsUser (clauses_in self.now)) }
        ensures allowed { IfOk result (λ change. Allows (clauses_in self.now) change) }
        ensures does { IfOk result (λ change. DoesEdit (clauses_in self.now)
            (Add name.now form.now) change) }
        ensures form { IsForm form.now }
    {
        let Some(clause) = self.clause_after(name, form) else {
            return Err(Refusal::Plain(EditFault::UnknownName));
        };
        if self.position(clause.name).is_some() {
            return Err(Refusal::Plain(EditFault::DoubleName));
        }
        let count = self.len();
        if count >= MOST {
            return Err(Refusal::Plain(EditFault::Full));
        }
        Ok(Change::Insert(count as u32, clause))
    }

    // A clause of this name and form goes directly before that of another name.
    fn putting<'e>(
        &self,
        next: &[u8],
        name: &'e [u8],
        form: &FormRef<'_>,
    ) -> Result<Change<'e>, Refusal>
        ensures change { MatchResult result
            (λ change. put_in (clauses_in self.now) next.now name.now form.now
            ≡ Ok (done (clauses_in self.now) change))
            (λ refusal. put_in (clauses_in self.now) next.now name.now form.now
            ≡ Err (fault_of refusal)) }
        ensures memory { IfErr result (λ refusal. fault_of refusal ≢ EditFault.NoMemory) }
        ensures user { IfErr result (TellsUser (clauses_in self.now)) }
        ensures allowed { IfOk result (λ change. Allows (clauses_in self.now) change) }
        ensures does { IfOk result (λ change. DoesEdit (clauses_in self.now)
            (Put next.now name.now form.now) change) }
        ensures form { IsForm form.now }
    {
        let formed = self.clause_after(name, form);
        let at = self
            .position(next)
            .ok_or(Refusal::Plain(EditFault::UnknownName))?;
        let Some(clause) = formed else {
            return Err(Refusal::Plain(EditFault::UnknownName));
        };
        if self.position(clause.name).is_some() {
            return Err(Refusal::Plain(EditFault::DoubleName));
        }
        if !clause.reads_before(at) {
            return Err(Refusal::Plain(EditFault::NotEarlier));
        }
        if self.len() >= MOST {
            return Err(Refusal::Plain(EditFault::Full));
        }
        Ok(Change::Insert(at, clause))
    }

    // The clause of this name is taken out.
    fn cutting<'e>(&self, name: &[u8]) -> Result<Change<'e>, Refusal>
        requires in_order { AreInOrder (clauses_in self.now) }
        ensures change { MatchResult result
            (λ change. taken_out (clauses_in self.now) name.now
            ≡ Ok (done (clauses_in self.now) change))
            (λ refusal. taken_out (clauses_in self.now) name.now ≡ Err (fault_of refusal)) }
        ensures memory { IfErr result (λ refusal. fault_of refusal ≢ EditFault.NoMemory) }
        ensures user { IfErr result (TellsUser (clauses_in self.now)) }
        ensures allowed { IfOk result (λ change. Allows (clauses_in self.now) change) }
        ensures puts { IfOk result (λ change. ¬ PutsIn change) }
        ensures does { IfOk result (λ change. DoesEdit (clauses_in self.now)
            (Cut name.now) change) }
    {
        let at = self
            .position(name)
            .ok_or(Refusal::Plain(EditFault::UnknownName))?;
        if let Some(user) = self.first_user(at) {
            return Err(Refusal::InUse(at, user as u32));
        }
        if self.len() <= 1 {
            return Err(Refusal::Plain(EditFault::LastClause));
        }
        Ok(Change::Remove(at))
    }

    // The clause of this name and form, whose operands stand in the table, if they all do.
    fn clause_after<'e>(&self, name: &'e [u8], form: &FormRef<'_>) -> Option<ClauseRef<'e>>
        ensures clause { option_map clause_seen result
            ≡ clause_after (clauses_in self.now) name.now form.now }
        ensures form { IsForm form.now }
    {
        let op = form.op();
        let a = self.first_operand(form.args())?;
        let b = self.second_operand(form.args())?;
        Some(ClauseRef {
            name,
            op,
            a,
            b,
            value: form.value(),
        })
    }

    // The place of the first operand, or 0 where there is none.
    fn first_operand(&self, args: ArgsRef<'_>) -> Option<u32>
        ensures { result ≡ operand (clauses_in self.now) (args_seen args.entry) 0 }
    {
        match args {
            ArgsRef::Zero => Some(0),
            ArgsRef::One(first) | ArgsRef::Two(first, _) => self.position(first),
        }
    }

    // The place of the second operand, or 0 where there is none.
    fn second_operand(&self, args: ArgsRef<'_>) -> Option<u32>
        ensures { result ≡ operand (clauses_in self.now) (args_seen args.entry) 1 }
    {
        match args {
            ArgsRef::Zero | ArgsRef::One(_) => Some(0),
            ArgsRef::Two(_, second) => self.position(second),
        }
    }
}
