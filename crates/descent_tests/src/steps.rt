// The steps of root lists: what is live of a model.
use crate::lists::root;
use arrayvec::ArrayVec;
use fixed_ops::{Fx, Op, arity, op_name, write_number};
use live_clauses::{Step, Tape, same};
use std::alloc::{AllocError, Global};
use std::process::Abort;
use std::test::Fail;

const QUARTER: i64 = 1 << 30;

// x * x + y * y - 0.5, which is below zero within a disc about the middle.
const DISC: &[u8] = b"a var-x\nb var-y\nc mul a a\nd mul b b\ne add c d\nr const 0.5\nf sub e r\n";

/// The lesser of x - 0.5 and -0.5 - x, and x more. Where x is below 0 the lesser is x - 0.5.
pub(crate) const SLOPES: &[u8] =
    b"x var-x\np const 0.5\nq const -0.5\na sub x p\nb sub q x\nm min a b\nf add m x";

/// A step on operands, or a coordinate.
pub(crate) fn step(op: Op, a: u32, b: u32) -> Step {
    Step {
        op,
        a,
        b,
        value: Fx::from_raw(0),
    }
}

/// The step of a constant of so many quarters.
pub(crate) fn constant(count: i8) -> Step {
    Step {
        op: Op::Const,
        a: 0,
        b: 0,
        value: Fx::from_raw(i64::from(count) * QUARTER),
    }
}

// Whether a list has exactly these steps.
fn has_steps(list: &Tape, steps: &[Step]) -> bool {
    if list.len() as usize != steps.len() {
        return false;
    }
    for (at, step) in steps.iter().enumerate() {
        if list.step(at as u32) != *step {
            return false;
        }
    }
    true
}

/// A list has exactly these steps.
pub(crate) fn expect_steps(rt: &impl Abort, list: &Tape, steps: &[Step]) {
    assert!(rt; has_steps(list, steps));
}

/// A list has these steps, one a line.
pub(crate) fn expect_lines(
    rt: &impl Abort,
    alloc: Global,
    list: &Tape,
    lines: &[u8],
) -> Result<(), Fail> {
    assert!(rt; lines_of(alloc, list)?.as_slice() == lines);
    Ok(())
}

/// A list is the same as one that is shared on.
pub(crate) fn expect_shared(rt: &impl Abort, list: &Tape) -> Result<(), Fail> {
    let shared = list.share()?;
    assert!(rt; same(list, &shared) && same(&shared, list));
    Ok(())
}

// The steps of a list, one a line.
fn lines_of(alloc: Global, list: &Tape) -> Result<Vec<u8>, AllocError> {
    let mut lines = Vec::new(alloc);
    for at in 0..list.len() {
        push_line(alloc, list.step(at), &mut lines)?;
    }
    Ok(lines)
}

// Adds the line of a step.
fn push_line(alloc: Global, step: Step, lines: &mut Vec<u8>) -> Result<(), AllocError> {
    lines.extend_from_slice(op_name(step.op))?;
    push_operands(alloc, step, lines)?;
    lines.push(b'\n')?;
    Ok(())
}

// Adds what the operation of a step is applied to.
fn push_operands(alloc: Global, step: Step, lines: &mut Vec<u8>) -> Result<(), AllocError> {
    if step.op == Op::Const {
        push_number(step.value, lines)
    } else {
        push_places(alloc, step, lines)
    }
}

// Adds the number of a constant.
fn push_number(value: Fx, lines: &mut Vec<u8>) -> Result<(), AllocError> {
    let mut number = ArrayVec::new();
    write_number(value, &mut number);
    lines.push(b' ')?;
    lines.extend_from_slice(number.as_slice())?;
    Ok(())
}

// Adds the places of the operands that a step has.
fn push_places(alloc: Global, step: Step, lines: &mut Vec<u8>) -> Result<(), AllocError> {
    let places = [step.a, step.b];
    for place in places.iter().take(arity(step.op) as usize) {
        let text = format!(in alloc; " {place}")?;
        lines.extend_from_slice(text.as_bytes())?;
    }
    Ok(())
}

// The root list of a text has these steps, one a line.
fn expect_root(rt: &impl Abort, alloc: Global, text: &[u8], lines: &[u8]) -> Result<(), Fail> {
    let list = root(alloc, text)?;
    expect_lines(rt, alloc, &list, lines)
}

// The root list of a text has exactly these steps.
fn expect_root_steps(
    rt: &impl Abort,
    alloc: Global,
    text: &[u8],
    steps: &[Step],
) -> Result<(), Fail> {
    let list = root(alloc, text)?;
    expect_steps(rt, &list, steps);
    Ok(())
}

// Whether a list is the same as the root list of a text.
fn is_root(alloc: Global, list: &Tape, text: &[u8]) -> Result<bool, Fail> {
    let other = root(alloc, text)?;
    Ok(same(list, &other))
}

// Models, and the steps of their root lists, one a line.
const LIVE: [(&[u8], &[u8]); 4] = [
    (b"u const 5\nx var-x", b"var-x\n"),
    (
        DISC,
        b"var-x\nvar-y\nmul 0 0\nmul 1 1\nadd 2 3\nconst 0.5000000000\nsub 4 5\n",
    ),
    (
        SLOPES,
        b"var-x\nconst 0.5000000000\nconst -0.5000000000\nsub 0 1\nsub 2 0\nmin 3 4\nadd 5 0\n",
    ),
    // The places after a clause that is not live move down.
    (
        b"x var-x\nu neg x\ny var-y\nv abs u\nf max y x",
        b"var-x\nvar-y\nmax 1 0\n",
    ),
];

fn expect_live(rt: &impl Abort, alloc: Global, rows: &[(&[u8], &[u8])]) -> Result<(), Fail> {
    for (text, lines) in rows {
        expect_root(rt, alloc, text, lines)?;
    }
    Ok(())
}

#[test]
fn root_lists_hold_what_is_live(rt: HostRuntime) -> Result<(), Fail> {
    expect_live(&rt, rt.alloc(), &LIVE)
}

#[test]
fn root_lists_leave_out_what_the_last_clause_does_not_need(rt: HostRuntime) -> Result<(), Fail> {
    let quotient = [constant(4), step(Op::X, 0, 0), step(Op::Div, 0, 1)];
    let coordinate = [step(Op::X, 0, 0)];
    expect_root_steps(&rt, rt.alloc(), b"c const 1\nx var-x\nd div c x", &quotient)?;
    expect_root_steps(&rt, rt.alloc(), b"u const 5\nx var-x", &coordinate)
}

// A list is the same as the root lists of these texts, or is not.
fn expect_same(
    rt: &impl Abort,
    alloc: Global,
    list: &Tape,
    cases: &[(&[u8], bool)],
) -> Result<(), Fail> {
    for (other, wanted) in cases {
        assert!(rt; is_root(alloc, list, other)? == *wanted, "{other:?}");
    }
    expect_shared(rt, list)
}

// Models, and whether their root lists are that of x - 0.5.
const OTHERS: [(&[u8], bool); 5] = [
    (b"# p\ny const 1\nz var-x\nq const 0.50\nd sub z q", true),
    (b"x var-x\np const 0.25\na sub x p", false),
    (b"x var-x\np const 0.5\na sub p x", false),
    (b"x var-y\np const 0.5\na sub x p", false),
    (b"x var-x\np const 0.5", false),
];

#[test]
fn lists_are_the_same_where_each_step_is(rt: HostRuntime) -> Result<(), Fail> {
    let list = root(rt.alloc(), b"x var-x\np const 0.5\na sub x p")?;
    expect_same(&rt, rt.alloc(), &list, &OTHERS)
}
