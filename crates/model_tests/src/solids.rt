ghost use Rattle.std.specs.Prelude.{◌^◌, ◌<◌, length};

use solid_lang::{Solid, SolidFault, SolidReason, judge, read_short_solid, read_solid};
use std::alloc::{AllocError, Global};
use std::process::Abort;
use std::test::Fail;

const TOO_MANY: SolidFault = SolidFault {
    line: 0,
    reason: SolidReason::TooMany,
};

// Why reading a text is refused, with a tree of few clauses.
fn short_fault(alloc: Global, text: &[u8]) -> Option<SolidFault>
    requires { length text.now < 2 ^ 32 }
{
    read_short_solid(alloc, text).err()
}

// The same with a tree of any number of clauses.
fn fault(alloc: Global, text: &[u8]) -> Option<SolidFault>
    requires { length text.now < 2 ^ 32 }
{
    read_solid(alloc, text).err()
}

// What is judged of a text, which is read unless it is refused for more than its length.
fn expect(rt: &impl Abort, alloc: Global, text: &[u8], judgement: Result<u32, SolidFault>) {
    assert!(rt; text.len() < 1 << 32);
    let refused = judgement.err();
    let long = refused.filter(|refused| *refused != TOO_MANY);
    let is_judged = judge(text) == judgement;
    let is_refused = short_fault(alloc, text) == refused && fault(alloc, text) == long;
    assert!(rt; is_judged && is_refused, "{text:?}");
}

const FAULTS: [(&[u8], u32, SolidReason); 26] = [
    (b"cone 1", 1, SolidReason::UnknownForm),
    (b"Ball 1", 1, SolidReason::UnknownForm),
    (b"# a\n\nball\0 1", 3, SolidReason::UnknownForm),
    (b"\xff\xfe", 1, SolidReason::UnknownForm),
    (b"ball x", 1, SolidReason::BadNumeral),
    (b"ball #5", 1, SolidReason::BadNumeral),
    (b"move 1 2 cone ball 1", 1, SolidReason::BadNumeral),
    (b"scale ball 1", 1, SolidReason::BadNumeral),
    (b"ball\n-\nball 0", 2, SolidReason::BadNumeral),
    (b"ball -1", 1, SolidReason::NotPositive),
    (b"box 1 1 0", 1, SolidReason::NotPositive),
    (b"ball 0.0000000001", 1, SolidReason::NotPositive),
    (b"scale 0 ball 1", 1, SolidReason::NotPositive),
    (b"cylinder 1\n-1e-9 x", 2, SolidReason::NotPositive),
    (b"union", 1, SolidReason::Unended),
    (b"union ball 1", 1, SolidReason::Unended),
    (b"move 0 0 0", 1, SolidReason::Unended),
    (b"union\nball 1\nball", 3, SolidReason::Unended),
    (b"union\nball 1\nball\n# x\n\n", 3, SolidReason::Unended),
    (b"ball 1 # note", 1, SolidReason::Trailing),
    (b"ball 1 ball 2", 1, SolidReason::Trailing),
    (b"ball 1\n\n\ncone", 4, SolidReason::Trailing),
    (b"intersect ball 1 ball 1\nball x", 2, SolidReason::Trailing),
    (b"", 0, SolidReason::Empty),
    (b"# a\n \t\r\n", 0, SolidReason::Empty),
    (b"\n\n", 0, SolidReason::Empty),
];

fn expect_faults(rt: &impl Abort, alloc: Global, rows: &[(&[u8], u32, SolidReason)]) {
    for (text, line, reason) in rows {
        let (line, reason) = (*line, *reason);
        expect(rt, alloc, text, Err(SolidFault { line, reason }));
    }
}

#[test]
fn tells_the_first_bad_token(rt: HostRuntime) {
    expect_faults(&rt, rt.alloc(), &FAULTS);
}

const COUNTS: [(&[u8], u32); 15] = [
    (b"ball\n# note\n1", 11),
    (b"ball 1.", 11),
    (b"ball .5", 11),
    (b"ball +.5e0", 11),
    (b"ball 1e400", 11),
    (b"ball 0.0000000002", 11),
    (b" \r\nball\r\n1\r\n", 11),
    (b"box 1 2 3", 14),
    (b"cylinder 1 2", 13),
    (b"move 0 -1 1e-1 ball 1", 17),
    (b"scale 2 ball 0.5", 15),
    (b"union ball 1 ball 1", 20),
    (b"intersect ball 1 ball 1", 20),
    (b"difference ball 1 ball 1", 21),
    (b"difference box 1 1 1 move 0.5 0 0 ball 0.25", 30),
];

fn expect_counts(rt: &impl Abort, alloc: Global, rows: &[(&[u8], u32)]) {
    for (text, clauses) in rows {
        expect(rt, alloc, text, Ok(*clauses));
    }
}

#[test]
fn counts_the_clauses(rt: HostRuntime) {
    expect_counts(&rt, rt.alloc(), &COUNTS);
}

#[test]
fn reads_the_tree(rt: HostRuntime) -> Result<(), Fail> {
    let text = b"difference\nmove 1 2 3 scale 2 ball 0.5\nintersect box 1 2 3 cylinder 1 2";
    let solid = read_solid(rt.alloc(), text)?;
    assert!(rt; is_tree(&solid));
    Ok(())
}

fn is_tree(solid: &Solid) -> bool {
    match solid {
        Solid::Difference(first, second) => is_moved_ball(first) && is_cut_block(second),
        _ => false,
    }
}

fn is_moved_ball(solid: &Solid) -> bool {
    match solid {
        Solid::Move(_, _, _, inner) => match &**inner {
            Solid::Scale(_, ball) => matches!(&**ball, Solid::Ball(_)),
            _ => false,
        },
        _ => false,
    }
}

fn is_cut_block(solid: &Solid) -> bool {
    match solid {
        Solid::Intersect(a, b) => {
            matches!(&**a, Solid::Block(_, _, _)) && matches!(&**b, Solid::Cylinder(_, _))
        }
        _ => false,
    }
}

// The text of so many moves, each within the others, and what follows them.
fn moves(alloc: Global, count: u32, last: &[u8]) -> Result<Vec<u8>, AllocError> {
    let mut text = Vec::new(alloc);
    for _ in 0..count {
        text.extend_from_slice(b"move 0 0 0\n")?;
    }
    text.extend_from_slice(last)?;
    Ok(text)
}

// What is judged of such a text.
fn expect_moves(
    rt: &impl Abort,
    alloc: Global,
    count: u32,
    last: &[u8],
    judgement: Result<u32, SolidFault>,
) -> Result<(), AllocError> {
    let text = moves(alloc, count, last)?;
    expect(rt, alloc, &text, judgement);
    Ok(())
}

#[test]
fn forms_stand_within_255_others(rt: HostRuntime) -> Result<(), Fail> {
    let line = 257;
    let too_deep = SolidFault {
        line,
        reason: SolidReason::TooDeep,
    };
    let unknown = SolidFault {
        line,
        reason: SolidReason::UnknownForm,
    };
    expect_moves(&rt, rt.alloc(), 255, b"ball 1", Ok(1541))?;
    expect_moves(&rt, rt.alloc(), 256, b"ball 1", Err(too_deep))?;
    expect_moves(&rt, rt.alloc(), 256, b"cone 1", Err(unknown))?;
    Ok(())
}

// Adds the text of so many balls, united in halves.
fn push_balls(text: &mut Vec<u8>, count: u32) -> Result<(), AllocError> {
    if count < 2 {
        return text.extend_from_slice(b"ball 0.5\n");
    }
    text.extend_from_slice(b"union\n")?;
    push_balls(text, count / 2)?;
    push_balls(text, count - count / 2)
}

// The text of 7,281 balls that are united, but for the first two forms, and what follows them.
fn balls(alloc: Global, start: &[u8], last: &[u8]) -> Result<Vec<u8>, AllocError> {
    let mut text = Vec::new(alloc);
    text.extend_from_slice(start)?;
    push_balls(&mut text, 3640)?;
    push_balls(&mut text, 3641)?;
    text.extend_from_slice(last)?;
    Ok(text)
}

// What is judged of such a text.
fn expect_balls(
    rt: &impl Abort,
    alloc: Global,
    start: &[u8],
    last: &[u8],
    judgement: Result<u32, SolidFault>,
) -> Result<(), AllocError> {
    let text = balls(alloc, start, last)?;
    expect(rt, alloc, &text, judgement);
    Ok(())
}

#[test]
fn clauses_are_at_most_65535(rt: HostRuntime) -> Result<(), Fail> {
    let trailing = SolidFault {
        line: 14_562,
        reason: SolidReason::Trailing,
    };
    expect_balls(&rt, rt.alloc(), b"union\n", b"", Ok(65_531))?;
    expect_balls(&rt, rt.alloc(), b"scale 1 union\n", b"", Ok(65_535))?;
    expect_balls(&rt, rt.alloc(), b"scale 1 difference\n", b"", Err(TOO_MANY))?;
    expect_balls(
        &rt,
        rt.alloc(),
        b"scale 1 difference\n",
        b"1",
        Err(trailing),
    )?;
    Ok(())
}
