// A change to a model whose names are lent.
ghost use Rattle.std.specs.Prelude.{◌≡◌};
ghost use Rattle.solid_model.specs.declared.edit.Edit.TheVariants.{Add, Cut, Put, Set};
ghost use Rattle.solid_model.specs.Edits.{IsEdit};
ghost use Rattle.solid_model.specs.LentEdits.{edit_seen};
ghost use Rattle.solid_model.specs.Names.{IsName};

use crate::FormRef;
use std::marker::Model;

/// A change to a model, whose names are lent. It takes no memory, and contracts see it as they see an
/// `Edit`.
#[derive(Debug, Drop)]
pub struct EditRef<'n> {
    lent: LentEdit<'n>,
}

// The change, as `Edit` tells the kinds.
#[derive(Debug, Drop)]
pub(crate) enum LentEdit<'n> {
    Set(&'n [u8], FormRef<'n>),
    Add(&'n [u8], FormRef<'n>),
    Put(&'n [u8], &'n [u8], FormRef<'n>),
    Cut(&'n [u8]),
}

impl<'n> Model for EditRef<'n> {
    ghost use Rattle.solid_model.specs.declared.edit.Edit.{Edit};
    ghost use Rattle.solid_model.specs.Edits.{IsEdit};
    ghost use Rattle.solid_model.specs.LentEdits.{edit_seen};

    ghost Value = { Edit };

    ghost view = { λ e. edit_seen e.lent };

    ghost invariant = { λ e. IsEdit (edit_seen e.lent) };
}

impl<'n> EditRef<'n> {
    /// The clause of this name gets this form.
    #[inline]
    pub fn set(name: &'n [u8], form: FormRef<'n>) -> EditRef<'n>
        requires { IsName name.now }
        ensures { result ≡ Set name.now form.entry }
    {
        // Lets the proof know that the form is one.
        form.op();
        EditRef {
            lent: LentEdit::Set(name, form),
        }
    }

    /// A new clause of this name and form is the last one.
    #[inline]
    pub fn add(name: &'n [u8], form: FormRef<'n>) -> EditRef<'n>
        requires { IsName name.now }
        ensures { result ≡ Add name.now form.entry }
    {
        // Lets the proof know that the form is one.
        form.op();
        EditRef {
            lent: LentEdit::Add(name, form),
        }
    }

    /// A new clause of the second name and this form stands directly before the clause of the first
    /// name.
    #[inline]
    pub fn put(next: &'n [u8], name: &'n [u8], form: FormRef<'n>) -> EditRef<'n>
        requires { IsName name.now }
        ensures { result ≡ Put next.now name.now form.entry }
    {
        // Lets the proof know that the form is one.
        form.op();
        EditRef {
            lent: LentEdit::Put(next, name, form),
        }
    }

    /// The clause of this name is taken out.
    #[inline]
    pub fn cut(name: &'n [u8]) -> EditRef<'n>
        requires { IsName name.now }
        ensures { result ≡ Cut name.now }
    {
        EditRef {
            lent: LentEdit::Cut(name),
        }
    }

    // Its kind, with what it says.
    #[inline]
    pub(crate) fn lent(&self) -> &LentEdit<'n>
        ensures lent { edit_seen result.now ≡ self.now }
        ensures edit { IsEdit self.now }
    {
        &self.lent
    }
}
