// Lists that are shortened where a minimum or a maximum is decided.
ghost use Rattle.std.specs.Prelude.{◌≡◌, ◌≢◌, ◌<◌, ◌≤◌, length, IfOk};
ghost use Rattle.live_clauses.specs.Choices.{AreChoices};

use crate::lists::root;
use crate::steps::{constant, expect_shared, expect_steps, step};
use fixed_ops::Op;
use interval_ops::Choice;
use live_clauses::{Lists, Step, Tape, prune, same};
use std::alloc::{AllocError, Global};
use std::process::Abort;
use std::test::Fail;

// The lesser of the distances of x from -0.5 and from 0.5, less 0.25.
const TWO_SPANS: &[u8] =
    b"x var-x\np const -0.5\nq const 0.5\na sub x p\nb abs a\nc sub x q\nd abs c\ne min b d\n\
    r const 0.25\nf sub e r";

// The same where it is more than 0.75, and 0.75 elsewhere.
const CUT_SPANS: &[u8] =
    b"x var-x\np const -0.5\nq const 0.5\na sub x p\nb abs a\nc sub x q\nd abs c\ne min b d\n\
    r const 0.25\nf sub e r\ns const 0.75\ng max s f";

// What a step may choose, where the steps of one operation choose.
fn allowed(op: Op, at: Op, choice: Choice) -> Choice
    ensures { op ≢ Op.Min → op ≢ Op.Max → result ≡ Choice.Both }
{
    match (op, at) {
        (Op::Min, Op::Min) | (Op::Max, Op::Max) => choice,
        _ => Choice::Both,
    }
}

// This choice at each minimum, or at each maximum, and no other.
fn at_each(alloc: Global, tape: &Tape, at: Op, choice: Choice) -> Result<Vec<Choice>, AllocError>
    ensures enough { IfOk result (λ choices. length tape.now ≤ length choices.items) }
    ensures choices { IfOk result (λ choices. AreChoices tape.now choices.items) }
{
    let mut choices = Vec::new(alloc);
    for place in 0..tape.len() {
        choices.push(allowed(tape.step(place).op, at, choice))?;
    }
    Ok(choices)
}

// The live list of a list, where the steps of one operation choose.
fn shortened(alloc: Global, list: &Tape, at: Op, choice: Choice) -> Result<Tape, AllocError> {
    let choices = at_each(alloc, list, at, choice)?;
    prune(alloc, list, &choices)
}

// What lies about -0.5, or about 0.5, where there are two quarters.
fn one_span(quarters: i8) -> [Step; 6] {
    [
        step(Op::X, 0, 0),
        constant(quarters),
        step(Op::Sub, 0, 1),
        step(Op::Abs, 2, 0),
        constant(1),
        step(Op::Sub, 3, 4),
    ]
}

// The list of two spans is shortened where its minimum is decided.
fn expect_decided(rt: &impl Abort, alloc: Global, list: &Tape) -> Result<(), Fail> {
    let two_spans = [
        step(Op::X, 0, 0),
        constant(-2),
        constant(2),
        step(Op::Sub, 0, 1),
        step(Op::Abs, 3, 0),
        step(Op::Sub, 0, 2),
        step(Op::Abs, 5, 0),
        step(Op::Min, 4, 6),
        constant(1),
        step(Op::Sub, 7, 8),
    ];
    expect_steps(rt, list, &two_spans);
    let left = shortened(alloc, list, Op::Min, Choice::Left)?;
    expect_left(rt, alloc, list, &left)
}

fn expect_left(rt: &impl Abort, alloc: Global, list: &Tape, left: &Tape) -> Result<(), Fail> {
    expect_steps(rt, left, &one_span(-2));
    assert!(rt; !same(left, list));
    expect_shared(rt, left)?;
    let right = shortened(alloc, list, Op::Min, Choice::Right)?;
    expect_right(rt, alloc, list, left, &right)
}

fn expect_right(
    rt: &impl Abort,
    alloc: Global,
    list: &Tape,
    left: &Tape,
    right: &Tape,
) -> Result<(), Fail> {
    expect_steps(rt, right, &one_span(2));
    assert!(rt; !same(left, right));
    let whole = shortened(alloc, list, Op::Min, Choice::Both)?;
    assert!(rt; same(&whole, list));
    Ok(())
}

// The list of cut spans is shortened where its maximum is decided, and then its minimum.
fn expect_decided_twice(rt: &impl Abort, alloc: Global, list: &Tape) -> Result<(), Fail> {
    let once = shortened(alloc, list, Op::Max, Choice::Right)?;
    expect_twice(rt, alloc, list, &once)
}

fn expect_twice(rt: &impl Abort, alloc: Global, list: &Tape, once: &Tape) -> Result<(), Fail> {
    expect_lists(rt, alloc, list, once)?;
    let twice = shortened(alloc, once, Op::Min, Choice::Right)?;
    expect_steps(rt, &twice, &one_span(2));
    Ok(())
}

// The same lists come one behind the other in one block.
fn expect_lists(rt: &impl Abort, alloc: Global, list: &Tape, once: &Tape) -> Result<(), Fail> {
    let mut lists = Lists::new(alloc, list)?;
    push_both(rt, alloc, &mut lists, once)
}

fn push_both(rt: &impl Abort, alloc: Global, lists: &mut Lists, once: &Tape) -> Result<(), Fail>
    requires { 0 < length lists.old }
{
    push_last(alloc, lists, Op::Max, Choice::Right)?;
    assert!(rt; lists.list(lists.len() - 1).same(&once.steps()));
    push_last(alloc, lists, Op::Min, Choice::Right)?;
    let twice = lists.keep(lists.len() - 1)?;
    expect_steps(rt, &twice, &one_span(2));
    Ok(())
}

// Puts the live list of the last of some lists behind it, where the steps of one operation choose.
fn push_last(alloc: Global, lists: &mut Lists, at: Op, choice: Choice) -> Result<(), AllocError>
    requires { 0 < length lists.old }
    ensures { 0 < length lists.new }
{
    let last = lists.len() - 1;
    let list = lists.keep(last)?;
    let choices = at_each(alloc, &list, at, choice)?;
    lists.push_live(last, choices.as_slice())
}

#[test]
fn a_list_is_shortened_where_its_minimum_is_decided(rt: HostRuntime) -> Result<(), Fail> {
    let list = root(rt.alloc(), TWO_SPANS)?;
    expect_decided(&rt, rt.alloc(), &list)
}

#[test]
fn a_constant_is_read_through_two_shortenings(rt: HostRuntime) -> Result<(), Fail> {
    let list = root(rt.alloc(), CUT_SPANS)?;
    expect_decided_twice(&rt, rt.alloc(), &list)
}
