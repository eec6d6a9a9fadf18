// What the work of an image is: how many evaluations, steps that are traced over boxes, and
// evaluations that plain evaluation takes. The numbers were worked out by hand, or with exact
// integers by the definitions, sample by sample.
use fixed_ops::Tally;
use modeller_cmd::Status;
use std::alloc::{AllocError, Global};
use std::process::Abort;
use std::test::Fail;
use trial_runs::{Calls, Ending, Ran, Trial};

// Words, a model, and its points, spans and plain.
type Case = (&'static [&'static str], &'static str, u64, u64, u64);

// Two bars of the width 0.5 round x = -0.5 and x = 0.5.
const BARS: &str =
    "x var-x\np const -0.5\nq const 0.5\na sub x p\nb abs a\nc sub x q\nd abs c\ne min b d\n\
    r const 0.25\nf sub e r";

// A disc round the origin.
const ROUND: &str = "x var-x\ny var-y\na square x\nb square y\nc add a b\nr const 0.5\nf sub c r";

const CASES: [Case; 15] = [
    // A quotient whose divisor may be 0 decides nothing.
    (
        &["count", "w=8", "h=1"],
        "c const 1\nx var-x\nd div c x",
        24,
        3,
        24,
    ),
    // Each half lies on one side, and is decided.
    (&["count", "w=16", "h=1"], "x var-x", 0, 3, 16),
    // A leaf is not halved.
    (&["count", "w=8", "h=1"], "x var-x", 8, 1, 8),
    // All is inside.
    (&["count", "w=8", "h=8"], "a const -1", 0, 1, 64),
    // The lower half has five samples, the last of which has the value 0.
    (&["count", "w=9", "h=1"], "x var-x", 5, 3, 9),
    // A clause that the last one does not need is not evaluated.
    (&["count", "w=8", "h=1"], "u const 5\nx var-x", 8, 1, 16),
    // Each half has one bar, and its quarters receive the six steps of that.
    (&["count", "w=32", "h=1"], BARS, 192, 54, 320),
    // Leaves whose samples are no multiple of eight, alone and beside others.
    (&["count", "w=7", "h=9"], BARS, 630, 30, 630),
    (&["count", "w=15", "h=17"], BARS, 1530, 74, 2550),
    (&["count", "w=4095", "h=1"], BARS, 96, 246, 40950),
    (&["count", "w=1", "h=1"], ROUND, 0, 7, 7),
    (&["count", "w=9", "h=8"], ROUND, 504, 21, 504),
    (&["count", "w=15", "h=17"], ROUND, 1785, 63, 1785),
    // A floor that is 0 all over decides the whole picture.
    (
        &["count", "w=16", "h=1"],
        "x var-x\nq const 0.25\nh const 0.5\na mul x q\nb add a h\nf floor b\ne sub f h",
        0,
        7,
        112,
    ),
    // Of two floors that tie, the halves receive the first.
    (
        &["count", "w=16", "h=1"],
        "x var-x\nq const 0.25\nh const 0.5\na mul x q\nb add a h\nf floor b\ng floor h\n\
        m min f g\ne add m x",
        0,
        23,
        144,
    ),
];

// Counts the work of an image, which should be told by three lines of these numbers.
fn count(
    alloc: Global,
    trial: Trial,
    points: u64,
    spans: u64,
    plain: u64,
) -> Result<Ran, AllocError> {
    let lines = format!(in alloc; "points {points}\nspans {spans}\nplain {plain}\n")?;
    trial.run(alloc, lines.as_bytes(), b"")
}

// Whether a run is done with so many evaluations and hulls.
fn takes(ran: &Ran, points: u64, spans: u64) -> bool {
    ran.ending == Ending::wanted(Status::Done)
        && ran.work.points == points
        && ran.work.spans == spans
}

fn expect_counts(rt: &impl Abort, alloc: Global, rows: &[Case]) -> Result<(), AllocError> {
    for (words, model, points, spans, plain) in rows {
        let trial = Trial::new(words, model.as_bytes());
        let ran = count(alloc, trial, *points, *spans, *plain)?;
        let is_told = takes(&ran, *points, *spans) && ran.work.corners <= spans.saturating_mul(4);
        assert!(rt; is_told, "{model:?}: {ran:?}");
    }
    Ok(())
}

#[test]
fn the_work_of_an_image_is_counted_and_told(rt: HostRuntime) -> Result<(), Fail> {
    expect_counts(&rt, rt.alloc(), &CASES)?;
    Ok(())
}

// Inside at the places 4 to 11 and 20 to 27.
const BARS_PICTURE: &[u8] = b"P5\n32 1\n255\n\
    \x00\x00\x00\x00\xff\xff\xff\xff\xff\xff\xff\xff\x00\x00\x00\x00\
    \x00\x00\x00\x00\xff\xff\xff\xff\xff\xff\xff\xff\x00\x00\x00\x00";

#[test]
fn a_picture_takes_the_work_that_is_told(rt: HostRuntime) -> Result<(), Fail> {
    let trial = Trial::new(&["render", "w=32", "h=1"], BARS.as_bytes());
    let ran = trial.run(rt.alloc(), BARS_PICTURE, b"")?;
    assert!(rt; takes(&ran, 192, 54), "{ran:?}");
    Ok(())
}

#[test]
fn what_was_counted_before_is_kept_and_not_told(rt: HostRuntime) -> Result<(), Fail> {
    let mut tally = Tally::new();
    let picture = b"P5\n9 1\n255\n\xff\xff\xff\xff\x00\x00\x00\x00\x00";
    let first = Trial::new(&["render", "w=9", "h=1"], b"x var-x");
    let ran = first.run_counted(rt.alloc(), &mut tally, picture, b"")?;
    assert!(rt; takes(&ran, 5, 3), "{ran:?}");
    let told = b"points 8\nspans 1\nplain 8\n";
    let second = Trial::new(&["count", "w=8", "h=1"], b"x var-x");
    let ran = second.run_counted(rt.alloc(), &mut tally, told, b"")?;
    assert!(rt; takes(&ran, 13, 4), "{ran:?}");
    Ok(())
}

#[test]
fn counts_that_can_not_be_written_are_counted(rt: HostRuntime) -> Result<(), Fail> {
    let mut trial = Trial::new(&["count", "w=9", "h=1"], b"x var-x");
    trial.writes = Calls {
        chunk: 5,
        failing: 2,
    };
    let ran = trial.run(rt.alloc(), b"point", b"modeller: write fault\n")?;
    assert_eq!(rt; ran.ending, Ending::wanted(Status::WriteFault));
    assert_eq!(rt; (ran.work.points, ran.work.spans), (5, 3));
    Ok(())
}
