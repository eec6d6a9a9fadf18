// Models, and what edits make of them.
use crate::changes::Change;
use crate::starts::{DISC, Start, first};
use crate::walks::{Deed, expect};
use clause_reader::read_form;
use fixed_ops::Op;
use solid_model::{EditFault, ModelBuilder};
use std::alloc::Global;
use std::test::Fail;

// The raw number of a half.
const HALF: i64 = 1 << 31;

// The operands of the disc's clauses.
const OPERANDS: &[u8] = b"00000011230045";

const PLACED: &[Deed<'static>] = &[
    Deed::Edit(Change::Add(b"b", b"var-y"), Ok(())),
    Deed::Edit(Change::Add(b"c", b"mul a a"), Ok(())),
    Deed::Edit(Change::Add(b"d", b"mul b b"), Ok(())),
    Deed::Edit(Change::Add(b"e", b"add c d"), Ok(())),
    Deed::Edit(Change::Add(b"r", b"const 0.5"), Ok(())),
    Deed::Edit(Change::Add(b"f", b"sub e r"), Ok(())),
    Deed::Clause(0, b"a", Op::X, (0, 0), 0),
    Deed::Clause(1, b"b", Op::Y, (0, 0), 0),
    Deed::Clause(2, b"c", Op::Mul, (0, 0), 0),
    Deed::Clause(3, b"d", Op::Mul, (1, 1), 0),
    Deed::Clause(4, b"e", Op::Add, (2, 3), 0),
    Deed::Clause(5, b"r", Op::Const, (0, 0), HALF),
    Deed::Clause(6, b"f", Op::Sub, (4, 5), 0),
    Deed::Len(7),
    Deed::Place(b"g", None),
];

#[test]
fn places_the_operands_of_a_disc(rt: HostRuntime) -> Result<(), Fail> {
    expect(&rt, rt.alloc(), Start::X, PLACED)
}

const REFUSED: &[Deed<'static>] = &[
    Deed::Refused(Change::Add(b"g", b"add a g"), EditFault::UnknownName),
    Deed::Refused(Change::Add(b"g", b"add a n"), EditFault::UnknownName),
    Deed::Refused(Change::Add(b"a", b"add a n"), EditFault::UnknownName),
    Deed::Refused(Change::Add(b"a", b"add a f"), EditFault::DoubleName),
    Deed::Refused(Change::Set(b"g", b"add a b"), EditFault::UnknownName),
    Deed::Refused(Change::Set(b"c", b"add f g"), EditFault::UnknownName),
    Deed::Refused(Change::Set(b"c", b"add a c"), EditFault::NotEarlier),
    Deed::Refused(Change::Put(b"g", b"h", b"add a b"), EditFault::UnknownName),
    Deed::Refused(Change::Put(b"c", b"a", b"add a g"), EditFault::UnknownName),
    Deed::Refused(Change::Put(b"c", b"a", b"add a f"), EditFault::DoubleName),
    Deed::Refused(Change::Put(b"c", b"g", b"add a c"), EditFault::NotEarlier),
    Deed::Refused(Change::Cut(b"g"), EditFault::UnknownName),
    Deed::Refused(Change::Cut(b"a"), EditFault::InUse(2)),
    Deed::Refused(Change::Cut(b"e"), EditFault::InUse(6)),
    Deed::Edit(Change::Add(b"g", b"add a f"), Ok(())),
    Deed::Clause(7, b"g", Op::Add, (0, 6), 0),
];

#[test]
fn refused_edits_tell_the_first_fault(rt: HostRuntime) -> Result<(), Fail> {
    expect(&rt, rt.alloc(), Start::Text(DISC), REFUSED)
}

const ONLY: &[Deed<'static>] = &[Deed::Edit(Change::Cut(b"a"), Err(EditFault::LastClause))];

#[test]
fn the_only_clause_stays(rt: HostRuntime) -> Result<(), Fail> {
    expect(&rt, rt.alloc(), Start::X, ONLY)
}

// Why no model begins with a clause of this form.
fn fault_of_first(alloc: Global, form: &[u8]) -> Result<Option<EditFault>, Fail> {
    Ok(first(alloc, read_form(alloc, form)?)?.err())
}

#[test]
fn the_first_clause_has_no_argument(rt: HostRuntime) -> Result<(), Fail> {
    assert!(rt; fault_of_first(rt.alloc(), b"add a a")? == Some(EditFault::UnknownName));
    Ok(())
}

const MOVED: &[Deed<'static>] = &[
    Deed::Edit(Change::Put(b"c", b"g", b"min a b"), Ok(())),
    Deed::Place(b"g", Some(2)),
    Deed::Operands(b"0000010011340056"),
    Deed::Edit(Change::Cut(b"g"), Ok(())),
    Deed::Place(b"g", None),
    Deed::Operands(OPERANDS),
    Deed::Edit(Change::Set(b"f", b"sub r e"), Ok(())),
    Deed::Place(b"f", Some(6)),
    Deed::Operands(b"00000011230054"),
    Deed::Edit(Change::Cut(b"f"), Ok(())),
    Deed::Place(b"f", None),
    Deed::Operands(b"000000112300"),
    Deed::Clause(5, b"r", Op::Const, (0, 0), HALF),
];

#[test]
fn edits_move_the_operands(rt: HostRuntime) -> Result<(), Fail> {
    expect(&rt, rt.alloc(), Start::Text(DISC), MOVED)
}

const TAKEN_BACK: &[Deed<'static>] = &[
    Deed::Back(Change::Set(b"f", b"sub r e"), OPERANDS),
    Deed::Back(Change::Add(b"h", b"mul f f"), OPERANDS),
    Deed::Back(Change::Put(b"c", b"g", b"min a b"), OPERANDS),
    Deed::Back(Change::Cut(b"f"), OPERANDS),
];

#[test]
fn an_inverse_takes_its_edit_back(rt: HostRuntime) -> Result<(), Fail> {
    expect(&rt, rt.alloc(), Start::Text(DISC), TAKEN_BACK)
}

const USED: &[Deed<'static>] = &[
    Deed::Edit(Change::Cut(b"a"), Err(EditFault::InUse(2))),
    Deed::Edit(Change::Cut(b"a"), Err(EditFault::InUse(2))),
    Deed::Edit(Change::Put(b"b", b"g", b"min a a"), Ok(())),
    Deed::Edit(Change::Cut(b"a"), Err(EditFault::InUse(1))),
    Deed::Edit(Change::Cut(b"g"), Ok(())),
    Deed::Edit(Change::Cut(b"a"), Err(EditFault::InUse(2))),
];

#[test]
fn the_first_user_is_that_of_the_clauses_now(rt: HostRuntime) -> Result<(), Fail> {
    expect(&rt, rt.alloc(), Start::Text(DISC), USED)
}

const NAMED: &[Deed<'static>] = &[
    Deed::New(b"fifteen-bytes-1", 7),
    Deed::New(b"sixteen-bytes-16", 8),
    Deed::New(b"seventeen-bytes-1", 9),
    Deed::New(b"seventeen-bytes-2", 10),
    Deed::Place(b"fifteen-bytes-1", Some(7)),
    Deed::Place(b"sixteen-bytes-16", Some(8)),
    Deed::Place(b"seventeen-bytes-1", Some(9)),
    Deed::Place(b"seventeen-bytes-2", Some(10)),
    Deed::Place(b"seventeen-bytes-3", None),
];

#[test]
fn finds_names_of_each_length(rt: HostRuntime) -> Result<(), Fail> {
    expect(&rt, rt.alloc(), Start::Text(DISC), NAMED)
}

const BUILT: &[Deed<'static>] = &[Deed::Len(2), Deed::Clause(1, b"s", Op::Square, (0, 0), 0)];

// Before it is made its builder refuses the name x.
#[test]
fn builds_a_model_by_places(rt: HostRuntime) -> Result<(), Fail> {
    expect(&rt, rt.alloc(), Start::Square, BUILT)
}

#[test]
fn no_clauses_are_no_model(rt: HostRuntime) {
    assert!(rt; ModelBuilder::new(rt.alloc()).finish().is_none());
}
