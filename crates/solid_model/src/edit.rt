// A change to a model, and why one is refused.
ghost use Rattle.std.specs.Prelude.{◌≡◌};
ghost use Rattle.solid_model.specs.Edits.{IsEdit};

use crate::{EditRef, Form, Name};
use thiserror::Error;

/// A change to a model.
#[derive(Debug, Drop)]
pub enum Edit {
    /// The clause of this name gets this form.
    Set(Name, Form),
    /// A new clause of this name and form is the last one, and so the output.
    Add(Name, Form),
    /// A new clause of the second name and this form stands directly before the clause of the first
    /// name.
    Put(Name, Name, Form),
    /// The clause of this name is taken out. Where it was the output, the clause before it is.
    Cut(Name),
}

impl Edit {
    /// The same change, its names lent.
    #[inline]
    pub fn lent(&self) -> EditRef<'_>
        ensures { result ≡ self.now }
    {
        match self {
            Edit::Set(name, form) => EditRef::set(name.bytes(), form.lent()),
            Edit::Add(name, form) => EditRef::add(name.bytes(), form.lent()),
            Edit::Put(next, name, form) => EditRef::put(next.bytes(), name.bytes(), form.lent()),
            Edit::Cut(name) => EditRef::cut(name.bytes()),
        }
    }

    // Lets a proof know that its name is a name, and that its form is one.
    #[inline]
    pub(crate) fn holds(&self)
        ensures { IsEdit self.now }
    {
        match self {
            Edit::Set(name, form) | Edit::Add(name, form) | Edit::Put(_, name, form) => {
                let _name = name.bytes();
                let _form = form.op;
            }
            Edit::Cut(name) => {
                let _name = name.bytes();
            }
        }
    }
}

/// Why an edit, or taking the last one back, was refused.
#[derive(Clone, Copy, Debug, PartialEq, Eq, Error)]
pub enum EditFault {
    /// A name that should stand already, or an argument, names no clause.
    #[error("a name or an argument names no clause")]
    UnknownName,
    /// The new name stands already.
    #[error("the name stands already")]
    DoubleName,
    /// An argument stands at or after the place of the clause.
    #[error("an argument does not stand before the clause")]
    NotEarlier,
    /// Another clause has this one as an argument; the place of the first that has.
    #[error("the clause at place {0} has this one as an argument")]
    InUse(u32),
    /// The model has one clause.
    #[error("the model has one clause")]
    LastClause,
    /// The model has 65,535 clauses.
    #[error("the model is full")]
    Full,
    /// Memory was refused.
    #[error("out of memory")]
    NoMemory,
    /// There is no edit to take back.
    #[error("there is no edit to undo")]
    NothingToUndo,
}
