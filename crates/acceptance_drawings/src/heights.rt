// Height maps. The tops were worked out with exact integers, sample by sample.
use modeller_cmd::Status;
use std::alloc::{AllocError, Global};
use std::process::Abort;
use std::test::Fail;
use trial_runs::{Calls, Ending, Trial};

// Words, a model, and the map.
type Case = (&'static [&'static str], &'static str, &'static [u8]);

// Below the plane z = x + y, which rises to the right and to the top.
const PLANE: &str = "x var-x\ny var-y\nz var-z\ns add x y\nf sub z s";

// A ball of radius 0.4 round x = -0.4, z = 0.5, before a slab that ends at z = -0.3.
const BODIES: &str =
    "x var-x\ny var-y\nz var-z\ncx const -0.4\ncz const 0.5\ndx sub x cx\ndz sub z cz\n\
    x2 square dx\ny2 square y\nz2 square dz\na add x2 y2\nb add a z2\nr const 0.16\nball sub b r\n\
    l const -0.3\nslab sub z l\nu min ball slab";

// A ball of radius 0.9 that is hollow up to 0.6.
const HOLLOW: &str =
    "x var-x\ny var-y\nz var-z\nx2 square x\ny2 square y\nz2 square z\na add x2 y2\nb add a z2\n\
    r sqrt b\no const 0.9\ni const 0.6\nout sub r o\nin sub i r\ns max out in";

const CASES: [Case; 17] = [
    // The places -1, 0 and 1, of which 0 is outside.
    (
        &["height", "w=1", "h=1", "d=3"],
        "z var-z",
        b"P5\n1 1\n3\n\x01",
    ),
    (
        &["height", "w=1", "h=1", "d=300"],
        "z var-z",
        b"P5\n1 1\n300\n\x00\x96",
    ),
    // All of a column, and nothing of it.
    (
        &["height", "w=1", "h=1", "d=3"],
        "a const -1",
        b"P5\n1 1\n3\n\x03",
    ),
    (
        &["height", "w=1", "h=1", "d=3"],
        "a const 1",
        b"P5\n1 1\n3\n\x00",
    ),
    // A lone sample of a column lies at z0.
    (
        &["height", "w=1", "h=1", "d=1", "z0=-0.5", "z1=9"],
        "z var-z",
        b"P5\n1 1\n1\n\x01",
    ),
    // Rows lie from the top on, and none of a column may be inside, or all.
    (
        &["height", "w=4", "h=2", "d=255"],
        PLANE,
        b"P5\n4 2\n255\n\x7f\xd4\xff\xff\x00\x00\x2b\x7f",
    ),
    (
        &["height", "w=4", "h=2", "d=256"],
        PLANE,
        b"P5\n4 2\n256\n\x00\x80\x00\xd5\x01\x00\x01\x00\x00\x00\x00\x00\x00\x2b\x00\x80",
    ),
    (
        &["height", "w=4", "h=2", "d=300"],
        PLANE,
        b"P5\n4 2\n300\n\x00\x96\x00\xfa\x01\x2c\x01\x2c\x00\x00\x00\x00\x00\x32\x00\x96",
    ),
    (
        &["height", "w=4", "h=2", "d=1024"],
        PLANE,
        b"P5\n4 2\n1024\n\x02\x00\x03\x55\x04\x00\x04\x00\x00\x00\x00\x00\x00\xab\x02\x00",
    ),
    // Where the ball lies before the slab, the slab is not seen.
    (
        &["height", "w=6", "h=1", "y0=0", "y1=0", "d=255"],
        BODIES,
        b"P5\n6 1\n255\n\x59\xeb\xeb\x59\x59\x59",
    ),
    (
        &["height", "w=6", "h=1", "y0=0", "y1=0", "d=256"],
        BODIES,
        b"P5\n6 1\n256\n\x00\x5a\x00\xec\x00\xec\x00\x5a\x00\x5a\x00\x5a",
    ),
    (
        &["height", "w=6", "h=1", "y0=0", "y1=0", "d=300"],
        BODIES,
        b"P5\n6 1\n300\n\x00\x69\x01\x15\x01\x15\x00\x69\x00\x69\x00\x69",
    ),
    (
        &["height", "w=6", "h=1", "y0=0", "y1=0", "d=1024"],
        BODIES,
        b"P5\n6 1\n1024\n\x01\x67\x03\xb1\x03\xb1\x01\x67\x01\x67\x01\x67",
    ),
    // Cut open at z = 0, so that its far inner side is seen, its shell, and nothing beside it.
    (
        &[
            "height", "w=7", "h=1", "x0=0", "y0=0.1", "y1=0.1", "z1=0", "d=255",
        ],
        HOLLOW,
        b"P5\n7 1\n255\n\x68\x6e\x82\xae\xff\xff\x00",
    ),
    (
        &[
            "height", "w=7", "h=1", "x0=0", "y0=0.1", "y1=0.1", "z1=0", "d=256",
        ],
        HOLLOW,
        b"P5\n7 1\n256\n\x00\x69\x00\x6f\x00\x83\x00\xaf\x01\x00\x01\x00\x00\x00",
    ),
    (
        &[
            "height", "w=7", "h=1", "x0=0", "y0=0.1", "y1=0.1", "z1=0", "d=300",
        ],
        HOLLOW,
        b"P5\n7 1\n300\n\x00\x7b\x00\x82\x00\x99\x00\xcd\x01\x2c\x01\x2c\x00\x00",
    ),
    (
        &[
            "height", "w=7", "h=1", "x0=0", "y0=0.1", "y1=0.1", "z1=0", "d=1024",
        ],
        HOLLOW,
        b"P5\n7 1\n1024\n\x01\xa2\x01\xbb\x02\x0b\x02\xbc\x04\x00\x04\x00\x00\x00",
    ),
];

fn expect_maps(rt: &impl Abort, alloc: Global, rows: &[Case]) -> Result<(), AllocError> {
    for (words, model, map) in rows {
        let ending = Trial::new(words, model.as_bytes())
            .run(alloc, map, b"")?
            .ending;
        assert!(rt;
            ending == Ending::wanted(Status::Done),
            "{words:?}: {ending:?}"
        );
    }
    Ok(())
}

#[test]
fn the_nearest_sample_inside_is_the_top(rt: HostRuntime) -> Result<(), Fail> {
    expect_maps(&rt, rt.alloc(), &CASES)?;
    Ok(())
}

// Words, a map, and its points and spans.
type Worked = (&'static [&'static str], &'static [u8], u64, u64);

// A ball before a slab. Its columns get their tops at different layers.
const BALL: &str =
    "x var-x\ny var-y\nz var-z\na square x\nb square y\nc add a b\nd square z\ne add c d\n\
    r const 0.5\nf sub e r\ng const 0.75\nm add z g\nh min f m";

// The points are those of the samples that do not lie behind a top, and the spans those of the
// boxes on the ways to them.
const WORKED: [Worked; 4] = [
    (
        &["height", "w=7", "h=9", "d=7"],
        b"P5\n7 9\n7\n\
            \x01\x01\x01\x01\x01\x01\x01\
            \x01\x01\x01\x01\x01\x01\x01\
            \x01\x01\x05\x05\x05\x01\x01\
            \x01\x01\x05\x05\x05\x01\x01\
            \x01\x04\x05\x06\x05\x04\x01\
            \x01\x01\x05\x05\x05\x01\x01\
            \x01\x01\x05\x05\x05\x01\x01\
            \x01\x01\x01\x01\x01\x01\x01\
            \x01\x01\x01\x01\x01\x01\x01",
        4862,
        39,
    ),
    (
        &["height", "w=9", "h=8", "d=9"],
        b"P5\n9 8\n9\n\
            \x01\x01\x01\x01\x01\x01\x01\x01\x01\
            \x01\x01\x01\x01\x01\x01\x01\x01\x01\
            \x01\x01\x06\x07\x07\x07\x06\x01\x01\
            \x01\x01\x06\x07\x07\x07\x06\x01\x01\
            \x01\x01\x06\x07\x07\x07\x06\x01\x01\
            \x01\x01\x06\x07\x07\x07\x06\x01\x01\
            \x01\x01\x01\x01\x01\x01\x01\x01\x01\
            \x01\x01\x01\x01\x01\x01\x01\x01\x01",
        6968,
        65,
    ),
    (
        &["height", "w=2", "h=3", "d=1024"],
        b"P5\n2 3\n1024\n\
            \x00\x80\x00\x80\
            \x00\x80\x00\x80\
            \x00\x80\x00\x80",
        57408,
        2483,
    ),
    (
        &["height", "w=3", "h=2", "d=1"],
        b"P5\n3 2\n1\n\
            \x01\x01\x01\
            \x01\x01\x01",
        0,
        13,
    ),
];

// Each map of the ball takes so much work.
fn expect_work(rt: &impl Abort, alloc: Global, rows: &[Worked]) -> Result<(), AllocError> {
    for (words, map, points, spans) in rows {
        let ran = Trial::new(words, BALL.as_bytes()).run(alloc, map, b"")?;
        let takes_that = ran.work.points == *points && ran.work.spans == *spans;
        let is_drawn = ran.ending == Ending::wanted(Status::Done) && takes_that;
        assert!(rt; is_drawn, "{words:?}: {ran:?}");
    }
    Ok(())
}

#[test]
fn samples_behind_a_top_are_not_evaluated(rt: HostRuntime) -> Result<(), Fail> {
    expect_work(&rt, rt.alloc(), &WORKED)?;
    Ok(())
}

#[test]
fn halves_that_are_decided_are_not_evaluated(rt: HostRuntime) -> Result<(), Fail> {
    let words = &["height", "w=1", "h=1", "d=16"];
    let ran = Trial::new(words, b"z var-z").run(rt.alloc(), b"P5\n1 1\n16\n\x08", b"")?;
    let takes_few = ran.work.points == 0 && ran.work.spans <= 3 && ran.work.corners <= 12;
    assert!(rt;
        ran.ending == Ending::wanted(Status::Done) && takes_few,
        "{ran:?}"
    );
    Ok(())
}

#[test]
fn a_height_map_has_at_most_1024_samples_along_each_axis(rt: HostRuntime) -> Result<(), Fail> {
    // Two bytes for each of 1024 * 1024 columns, after the 18 bytes `P5`, `1024 1024` and `1024`
    // with their line feeds.
    let length = 2_097_170;
    let words = &["height", "w=1024", "h=1024", "d=1024"];
    let map = Trial::new(words, b"z var-z").written(rt.alloc(), length)?;
    assert_eq!(rt; map.status, Status::Done);
    assert_eq!(rt; map.bytes.len(), length);
    // Each eighth lies on one side of the plane, and is decided.
    assert_eq!(rt; map.work.points, 0);
    assert!(rt; map.work.spans <= 9);
    Ok(())
}

#[test]
fn a_map_that_can_not_be_written_leaves_a_front(rt: HostRuntime) -> Result<(), Fail> {
    let mut trial = Trial::new(&["height", "w=1", "h=1", "d=300"], b"z var-z");
    trial.writes = Calls {
        chunk: 5,
        failing: 3,
    };
    let ran = trial.run(rt.alloc(), b"P5\n1 1\n300", b"modeller: write fault\n")?;
    assert_eq!(rt; ran.ending, Ending::wanted(Status::WriteFault));
    Ok(())
}
