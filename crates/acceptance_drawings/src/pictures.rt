// What is drawn. A run that always answers one fault, as want of memory, fails here.
use modeller_cmd::Status;
use std::alloc::{AllocError, Global};
use std::process::Abort;
use std::test::Fail;
use trial_runs::{DISC, DISC_PICTURE, Ending, THREE_BY_THREE, Trial};

// Words, a model, and the image.
type Case = (&'static [&'static str], &'static str, &'static [u8]);

const CASES: [Case; 17] = [
    // The value 0 is outside.
    (
        &["render", "w=3", "h=1"],
        "_0 var-x",
        b"P5\n3 1\n255\n\xff\x00\x00",
    ),
    // The rows go from y = 1 down to y = -1. Comments, blank lines and tabs say nothing.
    (
        &["render", "w=1", "h=3"],
        "#first\n\n \t\n\ty\tvar-y \n  # last",
        b"P5\n1 3\n255\n\x00\x00\xff",
    ),
    // One sample lies at -1, whatever zeros a count begins with.
    (
        &["render", "w=01", "h=0001"],
        "x var-x",
        b"P5\n1 1\n255\n\xff",
    ),
    // The exact product lies between -2^-32 and 0, and is rounded down.
    (
        &["render", "w=1", "h=1"],
        "a const -0.0000000003\nb const 0.0000000003\nc mul a b\n",
        b"P5\n1 1\n255\n\xff",
    ),
    // A file as a program writes it: lines that end with CR LF, and none at the end.
    (
        &["render", "w=3", "h=1"],
        "# text\r\n_0 const 2.95\r\n_1 var-x\r\n_2 const 8.13008\r\n_3 mul _1 _2\r\n\
        _4 add _0 _3\r\n_5 neg _4\r\n_6 square _5\r\n_7 sqrt _6\r\n_8 const 3\r\n_1f sub _7 _8",
        b"P5\n3 1\n255\n\x00\xff\x00",
    ),
    // 1 / x, where x is never 0.
    (
        &["render", "h=1", "w=8"],
        "c const 1\nx var-x\nd div c x",
        b"P5\n8 1\n255\n\xff\xff\xff\xff\x00\x00\x00\x00",
    ),
    // A window from 0 to 3: the samples lie at 0, 1, 2 and 3.
    (
        &["render", "x1=3", "x0=0", "w=4", "h=1"],
        "x var-x\nc const 1.5\nd sub x c",
        b"P5\n4 1\n255\n\xff\xff\x00\x00",
    ),
    // Its rows lie at 3, 2, 1 and 0.
    (
        &["render", "y0=0", "y1=3e0", "w=1", "h=4"],
        "y var-y\nc const 2\nd sub c y",
        b"P5\n1 4\n255\n\xff\x00\x00\x00",
    ),
    // A third of the way is not exact: columns are rounded down, and rows up.
    (
        &["render", "w=4", "h=1"],
        "x var-x\nc const 0.33333333333333333\nd add x c",
        b"P5\n4 1\n255\n\xff\xff\x00\x00",
    ),
    (
        &["render", "w=1", "h=4"],
        "y var-y\nc const 0.33333333333333333\nd sub y c",
        b"P5\n1 4\n255\n\x00\x00\xff\xff",
    ),
    // A raster lies at the height z.
    (
        &["render", "w=1", "h=1", "z=0.5"],
        "z var-z\nc const 0.25\nd sub c z",
        b"P5\n1 1\n255\n\xff",
    ),
    // Whole numbers are not above theirs, and 0 is outside.
    (
        &["render", "w=5", "h=1"],
        "x var-x\nf floor x",
        b"P5\n5 1\n255\n\xff\xff\x00\x00\x00",
    ),
    // A strip of the width 0.25 in the middle of each cell of the length 0.5.
    (
        &["render", "w=16", "h=1"],
        "x var-x\ntwo const 2\nk mul x two\nf floor k\nu sub k f\nh const 0.5\np sub u h\n\
        a abs p\nr const 0.25\ne sub a r",
        b"P5\n16 1\n255\n\
        \x00\xff\xff\x00\x00\xff\xff\x00\x00\xff\xff\x00\x00\xff\xff\x00",
    ),
    // Two floors that tie.
    (
        &["render", "w=8", "h=1"],
        "x var-x\nq const 0.25\nh const 0.5\na mul x q\nb add a h\nf floor b\ng floor h\n\
        m min f g\ne add m x",
        b"P5\n8 1\n255\n\xff\xff\xff\xff\x00\x00\x00\x00",
    ),
    // A disc without a bar, and the bar.
    (
        &["render", "w=5", "h=5"],
        "x var-x\ny var-y\nx2 square x\ny2 square y\ns add x2 y2\nr sqrt s\none const 0.8\n\
        d sub r one\nb abs x\nh const 0.25\nbar sub b h\nn neg bar\ncut max d n\ne min cut bar",
        b"P5\n5 5\n255\n\
        \x00\x00\xff\x00\x00\x00\xff\xff\xff\x00\x00\xff\xff\xff\x00\x00\xff\xff\xff\x00\x00\x00\xff\x00\x00",
    ),
    // What is out of range is clamped: b is the greatest number, c and e are the least, and d is 1.
    (
        &["render", "w=1", "h=1"],
        "a const -99999999999\nb square a\nc mul a b\nd div c a\ne sub c d",
        b"P5\n1 1\n255\n\xff",
    ),
    // Inside is where one of these differs from that.
    (
        &["render", "w=1", "h=1"],
        "a const -99999999999\nb square a\nc mul a b\nd div c a\ne sub c d\n\
        most const 1073741823.9999999997\nleast neg most\none const 1\n\
        f sub b most\ng abs f\nh sub c least\ni abs h\nj sub d one\nk abs j\nl sub e least\nm abs l\n\
        n max g i\no max k m\np max n o\nq neg p",
        b"P5\n1 1\n255\n\x00",
    ),
];

fn expect_pictures(rt: &impl Abort, alloc: Global, rows: &[Case]) -> Result<(), AllocError> {
    for (words, model, picture) in rows {
        let ending = Trial::new(words, model.as_bytes())
            .run(alloc, picture, b"")?
            .ending;
        assert!(rt;
            ending == Ending::wanted(Status::Done),
            "{model:?}: {ending:?}"
        );
    }
    Ok(())
}

#[test]
fn a_model_is_drawn_and_nothing_is_noted(rt: HostRuntime) -> Result<(), Fail> {
    expect_pictures(&rt, rt.alloc(), &CASES)?;
    Ok(())
}

#[test]
fn a_disc_of_one_leaf_takes_one_evaluation_a_clause_and_sample(
    rt: HostRuntime,
) -> Result<(), Fail> {
    let ran = Trial::new(THREE_BY_THREE, DISC).run(rt.alloc(), DISC_PICTURE, b"")?;
    // 9 samples and 7 clauses, each of which is traced once over the leaf.
    let takes_that = ran.work.points == 63 && ran.work.spans == 7 && ran.work.corners <= 28;
    assert!(rt;
        ran.ending == Ending::wanted(Status::Done) && takes_that,
        "{ran:?}"
    );
    Ok(())
}
