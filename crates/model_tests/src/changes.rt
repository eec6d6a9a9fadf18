// Edits, by bytes.
use clause_reader::read_form;
use solid_model::{Edit, Form, Name};
use std::alloc::Global;
use std::test::Fail;

/// An edit by its names and the text of its form. A clause that is put stands before the one that is named
/// first.
#[derive(Clone, Copy)]
pub(crate) enum Change<'a> {
    Set(&'a [u8], &'a [u8]),
    Add(&'a [u8], &'a [u8]),
    Put(&'a [u8], &'a [u8], &'a [u8]),
    Cut(&'a [u8]),
}

// The name of a clause, and what it says.
fn parts(alloc: Global, name: &[u8], form: &[u8]) -> Result<(Name, Form), Fail> {
    let form = read_form(alloc, form)?;
    Ok((Name::new(alloc, name)?, form))
}

/// The edit of a change.
pub(crate) fn edit_of(alloc: Global, change: Change<'_>) -> Result<Edit, Fail> {
    match change {
        Change::Set(name, form) => {
            let (name, form) = parts(alloc, name, form)?;
            Ok(Edit::Set(name, form))
        }
        Change::Add(name, form) => {
            let (name, form) = parts(alloc, name, form)?;
            Ok(Edit::Add(name, form))
        }
        Change::Put(next, name, form) => {
            let (name, form) = parts(alloc, name, form)?;
            Ok(Edit::Put(Name::new(alloc, next)?, name, form))
        }
        Change::Cut(name) => Ok(Edit::Cut(Name::new(alloc, name)?)),
    }
}
