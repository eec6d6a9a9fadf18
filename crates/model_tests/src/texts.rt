use crate::starts::Start;
use crate::walks::{Deed, expect};
use clause_reader::{
    Comments, FormFault, Lines, TextFault, TextReason, next_token, read_form, read_model,
};
use fixed_ops::Op;
use std::alloc::Global;
use std::process::Abort;
use std::test::Fail;

const DISC: &[u8] =
    b"#\na var-x\n\nb\tvar-y\r\nc square a\n d square b\ne add c d\nr const -5e-1\nf add e r";

const READ: &[Deed<'static>] = &[
    Deed::Len(7),
    Deed::Clause(0, b"a", Op::X, (0, 0), 0),
    Deed::Clause(1, b"b", Op::Y, (0, 0), 0),
    Deed::Clause(2, b"c", Op::Square, (0, 0), 0),
    Deed::Clause(3, b"d", Op::Square, (1, 0), 0),
    Deed::Clause(4, b"e", Op::Add, (2, 3), 0),
    Deed::Clause(5, b"r", Op::Const, (0, 0), -(1 << 31)),
    Deed::Clause(6, b"f", Op::Add, (4, 5), 0),
];

#[test]
fn reads_a_disc(rt: HostRuntime) -> Result<(), Fail> {
    expect(&rt, rt.alloc(), Start::Text(DISC), READ)
}

const FAULTS: [(&[u8], u32, TextReason); 12] = [
    (b"x var-x\n\n y \r\nz", 3, TextReason::NoOperation),
    (b"x var-X", 1, TextReason::UnknownOperation),
    (b"# c\na const x y", 2, TextReason::WrongArity),
    (b"x var-x 1", 1, TextReason::WrongArity),
    (b"a const 0x1", 1, TextReason::BadNumeral),
    (b"x neg y\ny var-y", 1, TextReason::UnknownName),
    (b"x var-x\nx neg y", 2, TextReason::UnknownName),
    (b"x var-x\ny neg #x", 2, TextReason::UnknownName),
    (b"x var-x\nx var-y", 2, TextReason::DoubleName),
    (b"x\0\xff var-x\nx\0\xff var-y", 2, TextReason::DoubleName),
    (b"# a var-x\n \t\r\n", 0, TextReason::Empty),
    (b"", 0, TextReason::Empty),
];

// Why a text is refused.
fn fault(alloc: Global, text: &[u8]) -> Option<TextFault> {
    if text.len() > 100 {
        return None;
    }
    read_model(alloc, text).err()
}

fn expect_faults(rt: &impl Abort, alloc: Global, rows: &[(&[u8], u32, TextReason)]) {
    for (text, line, reason) in rows {
        let (line, reason) = (*line, *reason);
        assert!(rt;
            fault(alloc, text) == Some(TextFault { line, reason }),
            "{text:?}"
        );
    }
}

#[test]
fn refuses_the_first_bad_line(rt: HostRuntime) {
    expect_faults(&rt, rt.alloc(), &FAULTS);
}

const LINES: &[u8] = b"# a\n\nb  c\td\r\n #e f\n \t\ng";

// The numbers of the lines, and their first two tokens.
const KEPT: [(u32, &[u8], &[u8]); 4] = [
    (1, b"#", b"a"),
    (3, b"b", b"c"),
    (4, b"#e", b"f"),
    (6, b"g", b""),
];

// Whether the next line has this number and these first two tokens.
fn gives_line(lines: &mut Lines<'_>, number: u32, first: &[u8], second: &[u8]) -> bool {
    match lines.next() {
        Some(mut line) => {
            let others = line.others.next().unwrap_or(b"");
            line.number == number && line.first == first && others == second
        }
        None => false,
    }
}

fn expect_lines(rt: &impl Abort, lines: &mut Lines<'_>, rows: &[(u32, &[u8], &[u8])]) {
    for (number, first, second) in rows {
        assert!(rt; gives_line(lines, *number, first, second), "line {number}");
    }
    assert!(rt; lines.next().is_none());
}

#[test]
fn walks_lines_and_their_tokens(rt: HostRuntime) {
    expect_lines(&rt, &mut Lines::new(LINES, Comments::Kept), &KEPT);
    let mut lines = Lines::after(6, LINES, Comments::Skipped);
    let others: [(u32, &[u8], &[u8]); 2] = [(9, b"b", b"c"), (12, b"g", b"")];
    expect_lines(&rt, &mut lines, &others);
}

// The operation of a form that is read, and how many operands it has.
fn read_parts(alloc: Global, bytes: &[u8]) -> Result<(Op, usize), FormFault> {
    let form = read_form(alloc, bytes)?;
    Ok((form.op, form.args.len()))
}

const FORM_FAULTS: [(&[u8], FormFault); 5] = [
    (b" ", FormFault::NoOperation),
    (b"minus a b", FormFault::UnknownOperation),
    (b"min #a", FormFault::WrongArity),
    (b"const #a", FormFault::BadNumeral),
    (b"min a #b", FormFault::BadName),
];

fn expect_form_faults(rt: &impl Abort, alloc: Global, rows: &[(&[u8], FormFault)]) {
    for (bytes, fault) in rows {
        assert!(rt; read_parts(alloc, bytes) == Err(*fault), "{bytes:?}");
    }
}

#[test]
fn reads_forms(rt: HostRuntime) {
    assert!(rt; read_parts(rt.alloc(), b" min a\tb ") == Ok((Op::Min, 2)));
    expect_form_faults(&rt, rt.alloc(), &FORM_FAULTS);
    let tokens = [next_token(b" min  a", 4), next_token(b"a \t", 1)];
    assert!(rt; tokens == [Some((6, 7)), None]);
}

const WRITTEN: [(&[u8], &[u8]); 3] = [
    (
        b"# text\n\tx  var-x\r\n_1 const -0.5\n \ndifference sub _1 x",
        b"x var-x\n_1 const -0.5000000000\ndifference sub _1 x\n",
    ),
    (b"a const 1e-5", b"a const 0.0000100000\n"),
    (b"a const 99999999999", b"a const 1073741823.9999999997\n"),
];

fn expect_written(rt: &impl Abort, alloc: Global, rows: &[(&[u8], &[u8])]) -> Result<(), Fail> {
    for (text, written) in rows {
        expect(rt, alloc, Start::Text(text), &[Deed::Text(written)])?;
    }
    Ok(())
}

#[test]
fn writes_what_it_reads(rt: HostRuntime) -> Result<(), Fail> {
    expect_written(&rt, rt.alloc(), &WRITTEN)
}
