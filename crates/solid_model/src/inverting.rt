// The edits that take edits back.
ghost use Rattle.std.specs.Prelude.{◌≡◌, length, IfOk, IsOk, IsSome};
ghost use Rattle.std.specs.Option.{option_map};
ghost use Rattle.solid_model.specs.Changes.{surgery};
ghost use Rattle.solid_model.specs.Clauses.{place_of, AreInOrder};
ghost use Rattle.solid_model.specs.Inverses.{behind, form_under, inverse_of, put_before};
ghost use Rattle.solid_model.specs.Named.{named_of};
ghost use Rattle.solid_model.specs.Tables.{clauses_in};

use crate::table::Table;
use crate::{Edit, Form, Name};
use std::alloc::AllocError;

impl Table {
    // The edit that takes back one which the clauses allow. AllocError: memory was refused.
    pub(crate) fn inverse(&self, edit: &Edit) -> Result<Edit, AllocError>
        requires in_order { AreInOrder (clauses_in self.now) }
        requires accepted { IsOk (surgery (clauses_in self.now) edit.now) }
        ensures { IfOk result (λ inverse. inverse ≡ inverse_of (clauses_in self.now) edit.now) }
    {
        match edit {
            Edit::Set(name, _) => Ok(Edit::Set(name.copy()?, self.form_under(name)?)),
            Edit::Add(name, _) | Edit::Put(_, name, _) => Ok(Edit::Cut(name.copy()?)),
            Edit::Cut(name) => self.back_in(name),
        }
    }

    // The form of the clause of this name.
    fn form_under(&self, name: &Name) -> Result<Form, AllocError>
        requires in_order { AreInOrder (clauses_in self.now) }
        requires known { IsSome (place_of (clauses_in self.now) name.now) }
        ensures { IfOk result (λ form. form ≡ form_under (named_of (clauses_in self.now)) name.now) }
    {
        match self.position(name.bytes()) {
            Some(at) => self.form(at as usize),
            None => unreachable!(),
        }
    }

    // Puts the clause of this name back where it stands.
    fn back_in(&self, name: &Name) -> Result<Edit, AllocError>
        requires in_order { AreInOrder (clauses_in self.now) }
        requires known { IsSome (place_of (clauses_in self.now) name.now) }
        ensures { IfOk result (λ edit. edit
            ≡ put_before (behind (named_of (clauses_in self.now)) name.now) name.now
            (form_under (named_of (clauses_in self.now)) name.now)) }
    {
        let form = self.form_under(name)?;
        match self.name_behind(name)? {
            Some(next) => Ok(Edit::Put(next, name.copy()?, form)),
            None => Ok(Edit::Add(name.copy()?, form)),
        }
    }

    // The name of the clause behind that of this name, if there is one.
    fn name_behind(&self, name: &Name) -> Result<Option<Name>, AllocError>
        requires in_order { AreInOrder (clauses_in self.now) }
        requires known { IsSome (place_of (clauses_in self.now) name.now) }
        ensures { IfOk result (λ next. next
            ≡ option_map (λ c. c.name) (behind (named_of (clauses_in self.now)) name.now)) }
    {
        let next = match self.position(name.bytes()) {
            Some(at) => at as usize + 1,
            None => unreachable!(),
        };
        if next < self.len() {
            Ok(Some(self.name(next)?))
        } else {
            Ok(None)
        }
    }
}
