// Root lists that one memory makes, which are told apart by the numbers that they need, wherever these stand.
use crate::lists::model;
use crate::steps::{constant, expect_steps, step};
use fixed_ops::Op;
use live_clauses::{RootRoom, Tape, same};
use solid_model::Model;
use std::alloc::Global;
use std::process::Abort;
use std::test::Fail;

// x less a half.
const LESS: &[u8] = b"x var-x\np const 0.5\nf sub x p";

// The same behind 1.75, which nothing needs.
const UNUSED: &[u8] = b"u const 1.75\nx var-x\np const 0.5\nf sub x p";

// Both numbers the other way round.
const OTHER: &[u8] = b"u const 0.5\nx var-x\np const 1.75\nf sub x p";

// The root list of a text, made after another in this memory.
fn root(
    alloc: Global,
    room: &mut RootRoom,
    text: &[u8],
    before: Option<&Tape>,
) -> Result<Tape, Fail> {
    let model = model(alloc, text)?;
    root_of(room, &model, before)
}

fn root_of(room: &mut RootRoom, model: &Model, before: Option<&Tape>) -> Result<Tape, Fail> {
    Ok(room.root(model, before)?)
}

fn expect_roots(rt: &impl Abort, alloc: Global, room: &mut RootRoom) -> Result<(), Fail> {
    let list = root(alloc, room, LESS, None)?;
    expect_same(rt, alloc, room, &list)
}

fn expect_same(
    rt: &impl Abort,
    alloc: Global,
    room: &mut RootRoom,
    list: &Tape,
) -> Result<(), Fail> {
    let same_numbers = root(alloc, room, UNUSED, None)?;
    assert!(rt; same(list, &same_numbers));
    expect_other(rt, alloc, room, list, &same_numbers)
}

fn expect_other(
    rt: &impl Abort,
    alloc: Global,
    room: &mut RootRoom,
    list: &Tape,
    same_numbers: &Tape,
) -> Result<(), Fail> {
    let other_number = root(alloc, room, OTHER, Some(list))?;
    assert!(rt; !same(list, &other_number));
    assert!(rt; !same(same_numbers, &other_number));
    expect_again(rt, alloc, room, list, &other_number)
}

fn expect_again(
    rt: &impl Abort,
    alloc: Global,
    room: &mut RootRoom,
    list: &Tape,
    other_number: &Tape,
) -> Result<(), Fail> {
    let again = root(alloc, room, UNUSED, Some(other_number))?;
    let steps = [step(Op::X, 0, 0), constant(2), step(Op::Sub, 0, 1)];
    expect_steps(rt, &again, &steps);
    expect_shared_on(rt, alloc, room, list)
}

fn expect_shared_on(
    rt: &impl Abort,
    alloc: Global,
    room: &mut RootRoom,
    list: &Tape,
) -> Result<(), Fail> {
    let shared = root(alloc, room, LESS, Some(list))?;
    assert!(rt; same(list, &shared));
    Ok(())
}

#[test]
fn numbers_are_compared_wherever_they_stand(rt: HostRuntime) -> Result<(), Fail> {
    let mut room = RootRoom::new(rt.alloc());
    expect_roots(&rt, rt.alloc(), &mut room)
}
