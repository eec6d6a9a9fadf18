// The root lists of models' texts. A function that owns a model or a list lets it go at one place, as far as it can:
// a proof is long for each place where it does.
use clause_reader::read_model;
use live_clauses::{Tape, root_tape};
use solid_model::Model;
use std::alloc::Global;
use std::test::Fail;

/// The root list of a text.
pub(crate) fn root(alloc: Global, text: &[u8]) -> Result<Tape, Fail> {
    let model = model(alloc, text)?;
    root_of(alloc, &model)
}

fn root_of(alloc: Global, model: &Model) -> Result<Tape, Fail> {
    Ok(root_tape(alloc, model)?)
}

/// The root lists of some texts.
pub(crate) fn roots(alloc: Global, texts: &[&[u8]]) -> Result<Vec<Tape>, Fail> {
    let mut lists = Vec::new(alloc);
    for text in texts {
        push_root(alloc, text, &mut lists)?;
    }
    Ok(lists)
}

fn push_root(alloc: Global, text: &[u8], lists: &mut Vec<Tape>) -> Result<(), Fail> {
    let list = root(alloc, text)?;
    lists.push(list)?;
    Ok(())
}

/// The model of a text.
pub(crate) fn model(alloc: Global, text: &[u8]) -> Result<Model, Fail> {
    if text.len() > 200 {
        return Err(Fail::new("a text that is too long"));
    }
    Ok(read_model(alloc, text)?)
}
