// Texts that are no model, each with the line and the reason of its first defect.
use modeller_cmd::Status;
use std::alloc::{AllocError, Global};
use std::process::Abort;
use std::test::Fail;
use trial_runs::{DISC, DISC_PICTURE, Ending, Ran, THREE_BY_THREE, Trial};

// Texts, the lines that are noted, and the reasons. Line 0 stands for the whole text.
pub const CASES: [(&str, u32, &str); 28] = [
    // No clause at all.
    ("", 0, "Empty"),
    ("# only a comment", 0, "Empty"),
    ("\n \t\r\n#x\n", 0, "Empty"),
    // No operation.
    ("a", 1, "NoOperation"),
    ("a var-x\n b \r\n", 2, "NoOperation"),
    // An operation that there is not.
    ("a foo", 1, "UnknownOperation"),
    ("a VAR-X", 1, "UnknownOperation"),
    ("a #var-x", 1, "UnknownOperation"),
    ("a var-x\nb Floor a", 2, "UnknownOperation"),
    ("a var-x\nb FLOOR a", 2, "UnknownOperation"),
    // Too many or too few words after the operation.
    ("a var-y # y", 1, "WrongArity"),
    ("a const x y", 1, "WrongArity"),
    ("a var-x\nb neg a a\n", 2, "WrongArity"),
    ("a var-x\nb floor", 2, "WrongArity"),
    ("a var-x\nb floor a a", 2, "WrongArity"),
    // No numeral.
    ("a const .", 1, "BadNumeral"),
    ("a const 1e", 1, "BadNumeral"),
    ("a const 0x1", 1, "BadNumeral"),
    ("a const nan", 1, "BadNumeral"),
    ("a const 1e1234", 1, "BadNumeral"),
    // A name that no line before this one has.
    ("a var-x\nb add a c\nc var-y\n", 2, "UnknownName"),
    ("a neg a\n", 1, "UnknownName"),
    ("a var-x\na neg #b\n", 2, "UnknownName"),
    // A name twice.
    ("a var-x\na var-y\n", 2, "DoubleName"),
    // Lines of every kind are counted, and the first defect is told.
    ("# c\n\na var-x\n\nb paint\n", 5, "UnknownOperation"),
    ("a var-x\nb paint\nc\n", 2, "UnknownOperation"),
    // A carriage return within a line is a blank, and no end of it.
    ("a var-x\ra", 1, "WrongArity"),
    ("\u{e9}\0 var-x\n\u{e9}\0 var-y", 2, "DoubleName"),
];

// Each text is refused so, and nothing is evaluated.
fn expect_refusals(
    rt: &impl Abort,
    alloc: Global,
    rows: &[(&str, u32, &str)],
) -> Result<(), AllocError> {
    for (text, line, reason) in rows {
        let trial = Trial::new(&["render"], text.as_bytes());
        let ran = trial.run_refused(alloc, "line", *line, reason)?;
        let is_refused = ran.ending == Ending::wanted(Status::BadModel) && ran.work.points == 0;
        assert!(rt; is_refused, "{text:?}: {ran:?}");
    }
    Ok(())
}

#[test]
fn the_line_and_the_reason_of_the_first_defect_are_noted(rt: HostRuntime) -> Result<(), Fail> {
    expect_refusals(&rt, rt.alloc(), &CASES)?;
    Ok(())
}

// Rows of nine samples.
const NONE: &[u8] = b"P5\n3 3\n255\n\x00\x00\x00\x00\x00\x00\x00\x00\x00";

const LEFT: &[u8] = b"P5\n3 3\n255\n\xff\x00\x00\xff\x00\x00\xff\x00\x00";

const BELOW: &[u8] = b"P5\n3 3\n255\n\x00\x00\x00\x00\x00\x00\xff\xff\xff";

// The last count of bytes behind which the text of the disc is cut so, the picture, the line and the reason.
// A text that is drawn has no reason.
type Cut = (u8, &'static [u8], u32, &'static str);

const CUTS: [Cut; 27] = [
    (0, b"", 0, "Empty"),
    (2, b"", 1, "NoOperation"),
    (6, b"", 1, "UnknownOperation"),
    (8, LEFT, 0, ""),
    (10, b"", 2, "NoOperation"),
    (14, b"", 2, "UnknownOperation"),
    (16, BELOW, 0, ""),
    // `c`, `c m`, `c mul`, and `c mul a a`.
    (18, b"", 3, "NoOperation"),
    (20, b"", 3, "UnknownOperation"),
    (24, b"", 3, "WrongArity"),
    (26, NONE, 0, ""),
    (28, b"", 4, "NoOperation"),
    (30, b"", 4, "UnknownOperation"),
    (34, b"", 4, "WrongArity"),
    (36, NONE, 0, ""),
    (38, b"", 5, "NoOperation"),
    (40, b"", 5, "UnknownOperation"),
    (44, b"", 5, "WrongArity"),
    (46, NONE, 0, ""),
    (48, b"", 6, "NoOperation"),
    (52, b"", 6, "UnknownOperation"),
    (54, b"", 6, "WrongArity"),
    // `0`, `0.` and `0.5` are numerals.
    (58, NONE, 0, ""),
    (60, b"", 7, "NoOperation"),
    (62, b"", 7, "UnknownOperation"),
    (66, b"", 7, "WrongArity"),
    (68, DISC_PICTURE, 0, ""),
];

// Draws so many bytes of the disc.
fn draw_front(
    alloc: Global,
    length: usize,
    picture: &[u8],
    line: u32,
    reason: &str,
) -> Result<Ran, AllocError> {
    let trial = Trial::new(THREE_BY_THREE, &DISC[..length.min(DISC.len())]);
    if reason.is_empty() {
        return trial.run(alloc, picture, b"");
    }
    trial.run_refused(alloc, "line", line, reason)
}

// Fronts of the disc end as the row says, from so many bytes on.
fn expect_cut(rt: &impl Abort, alloc: Global, first: u8, row: &Cut) -> Result<(), AllocError> {
    let (last, picture, line, reason) = row;
    let status = if reason.is_empty() {
        Status::Done
    } else {
        Status::BadModel
    };
    for length in first..=*last {
        let ending = draw_front(alloc, usize::from(length), picture, *line, reason)?.ending;
        assert!(rt; ending == Ending::wanted(status), "{length}: {ending:?}");
    }
    Ok(())
}

fn expect_cuts(rt: &impl Abort, alloc: Global, rows: &[Cut]) -> Result<(), AllocError> {
    let mut first = 0;
    for row in rows {
        expect_cut(rt, alloc, first, row)?;
        first = row.0.saturating_add(1);
    }
    Ok(())
}

#[test]
fn a_text_that_is_cut_is_another_text(rt: HostRuntime) -> Result<(), Fail> {
    expect_cuts(&rt, rt.alloc(), &CUTS)?;
    Ok(())
}
