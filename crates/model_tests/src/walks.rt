// What is done to models and asked of them. One function owns them all: a proof is long where it lets a model go.
use crate::changes::{Change, edit_of};
use crate::starts::{Start, started};
use clause_reader::write_model;
use fixed_ops::{Fx, Op};
use solid_model::{Edit, EditFault, Model};
use std::alloc::Global;
use std::process::Abort;
use std::test::Fail;

/// What is done to a model, or asked of it.
#[derive(Clone, Copy)]
pub(crate) enum Deed<'a> {
    /// An edit gives this, which `check` tells before it is made.
    Edit(Change<'a>, Result<(), EditFault>),
    /// The disc refuses an edit for this, and stays: it has seven clauses, and none of the name g.
    Refused(Change<'a>, EditFault),
    /// A clause of this new name can be added, which then stands at this place, and none can be added again.
    New(&'a [u8], u32),
    /// An edit and its inverse leave operands at these places.
    Back(Change<'a>, &'a [u8]),
    /// There are so many clauses.
    Len(u32),
    /// The clauses have operands at these places, which are digits, two for a clause.
    Operands(&'a [u8]),
    /// This name is found at this place, or at none.
    Place(&'a [u8], Option<u32>),
    /// The clause at a place has this name, by which it is found, this operation, operands at these places
    /// and this raw number.
    Clause(u32, &'a [u8], Op, (u32, u32), i64),
    /// All that the model says.
    Text(&'a [u8]),
}

/// Makes a model, and then does and asks all this in turn.
pub(crate) fn expect(
    rt: &impl Abort,
    alloc: Global,
    start: Start<'_>,
    deeds: &[Deed<'_>],
) -> Result<(), Fail> {
    let mut model = started(rt, alloc, start)?;
    expect_all(rt, alloc, &mut model, deeds)
}

fn expect_all(
    rt: &impl Abort,
    alloc: Global,
    model: &mut Model,
    deeds: &[Deed<'_>],
) -> Result<(), Fail> {
    for (at, deed) in deeds.iter().enumerate() {
        assert!(rt; holds(alloc, model, deed)?, "at {at}");
    }
    Ok(())
}

fn holds(alloc: Global, model: &mut Model, deed: &Deed<'_>) -> Result<bool, Fail> {
    match deed {
        Deed::Edit(change, wanted) => gives(alloc, model, *change, *wanted),
        Deed::Refused(change, fault) => {
            let refused = gives(alloc, model, *change, Err(*fault))?;
            Ok(refused && model.len() == 7 && model.position(b"g").is_none())
        }
        Deed::New(name, place) => comes_once(alloc, model, name, *place),
        Deed::Back(change, digits) => {
            take_back(alloc, model, *change)?;
            Ok(has_operands(model, digits))
        }
        Deed::Len(len) => Ok(model.len() == *len),
        Deed::Operands(digits) => Ok(has_operands(model, digits)),
        Deed::Place(name, place) => Ok(model.position(name) == *place),
        Deed::Clause(at, name, op, operands, raw) => {
            Ok(is_clause(model, *at, name, *op, *operands, *raw))
        }
        Deed::Text(text) => says(alloc, model, text),
    }
}

// Whether an edit gives this, and `check` tells it before.
fn gives(
    alloc: Global,
    model: &mut Model,
    change: Change<'_>,
    wanted: Result<(), EditFault>,
) -> Result<bool, Fail> {
    let edit = edit_of(alloc, change)?;
    let told = model.check(&edit);
    let given = model.apply(edit);
    Ok(told == wanted && given == wanted)
}

// Whether a name is new, and stands at a place once a clause of it was added, and not once more.
fn comes_once(alloc: Global, model: &mut Model, name: &[u8], place: u32) -> Result<bool, Fail> {
    let sum = Change::Add(name, b"add a b");
    let is_new = model.position(name).is_none();
    let added = gives(alloc, model, sum, Ok(()))?;
    let found = model.position(name) == Some(place);
    let again = gives(alloc, model, sum, Err(EditFault::DoubleName))?;
    Ok(is_new && added && found && again)
}

// Makes an edit and its inverse.
fn take_back(alloc: Global, model: &mut Model, change: Change<'_>) -> Result<(), Fail> {
    let edit = edit_of(alloc, change)?;
    let inverse = inverse_of(model, &edit)?;
    apply_both(model, edit, inverse)
}

// What takes an edit back that would be accepted.
fn inverse_of(model: &Model, edit: &Edit) -> Result<Edit, Fail> {
    model.check(edit)?;
    Ok(model.invert(edit)?)
}

fn apply_both(model: &mut Model, first: Edit, second: Edit) -> Result<(), Fail> {
    let one = model.apply(first);
    let other = model.apply(second);
    one?;
    Ok(other?)
}

/// Whether the clauses are as many as these pairs of digits, and have operands at their places.
pub(crate) fn has_operands(model: &Model, digits: &[u8]) -> bool {
    let mut rest = digits;
    for at in 0..model.len() {
        let [a, b, ..] = rest else {
            return false;
        };
        let clause = model.clause(at);
        if clause.a != u32::from(*a & 15) || clause.b != u32::from(*b & 15) {
            return false;
        }
        rest = &rest[2..];
    }
    rest.is_empty()
}

fn is_clause(model: &Model, at: u32, name: &[u8], op: Op, operands: (u32, u32), raw: i64) -> bool {
    if at >= model.len() {
        return false;
    }
    let clause = model.clause(at);
    clause.name == name
        && clause.op == op
        && (clause.a, clause.b) == operands
        && is_number(clause.value, raw)
        && model.position(name) == Some(at)
}

fn is_number(value: Fx, raw: i64) -> bool {
    -Fx::MAX_RAW <= raw && raw <= Fx::MAX_RAW && value == Fx::from_raw(raw)
}

/// Whether this is the text of a model.
pub(crate) fn says(alloc: Global, model: &Model, text: &[u8]) -> Result<bool, Fail> {
    let written = write_model(alloc, model)?;
    Ok(written.as_slice() == text)
}
