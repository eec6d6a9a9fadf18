// Shaded height maps. The pixels were worked out by hand, from the rules for the slopes of each operation.
use modeller_cmd::Status;
use std::alloc::{AllocError, Global};
use std::process::Abort;
use std::test::Fail;
use trial_runs::{Calls, Ending, Trial};

// Words, a model, and the picture.
type Case = (&'static [&'static str], &'static str, &'static [u8]);

const FLAT: &[&str] = &["shade", "w=1", "h=1", "d=1"];

const MIDDLE: &[&str] = &["shade", "w=1", "h=1", "d=1", "z0=0", "z1=0"];

const HALF: &[&str] = &["shade", "w=1", "h=1", "d=1", "z0=0.5", "z1=0.5"];

const COLUMN: &[&str] = &["shade", "w=1", "h=1", "d=3"];

const CASES: [Case; 20] = [
    (COLUMN, "z var-z\nf neg z\ng neg f", b"P5\n1 1\n255\n\xff"),
    (COLUMN, "x var-x\nz var-z\nf add x z", b"P5\n1 1\n255\n\x80"),
    (COLUMN, "a const -1", b"P5\n1 1\n255\n\xff"),
    (COLUMN, "a const 1", b"P5\n1 1\n255\n\x00"),
    // Of equal values the left operand's slope is taken.
    (FLAT, "x var-x\nz var-z\nf min x z", b"P5\n1 1\n255\n\x01"),
    (FLAT, "x var-x\nz var-z\nf min z x", b"P5\n1 1\n255\n\xff"),
    (FLAT, "x var-x\nz var-z\nf max x z", b"P5\n1 1\n255\n\x01"),
    (FLAT, "x var-x\nz var-z\nf max z x", b"P5\n1 1\n255\n\xff"),
    // A distance from 0 rises at 0, a root of 0 has the slope 0, and so has a quotient by 0.
    (
        MIDDLE,
        "x var-x\nz var-z\na abs z\nb add a z\nf add b x",
        b"P5\n1 1\n255\n\xaa",
    ),
    (
        MIDDLE,
        "x var-x\nz var-z\ns sqrt z\nf add s x",
        b"P5\n1 1\n255\n\x01",
    ),
    (MIDDLE, "x var-x\nz var-z\nf div x z", b"P5\n1 1\n255\n\xff"),
    // The root of a quarter rises by 1 for 1, and -1 / z by 4 where x / z rises by 2.
    (
        &["shade", "w=1", "h=1", "d=1", "z0=0.25", "z1=0.25"],
        "x var-x\nz var-z\ns sqrt z\nf add s x",
        b"P5\n1 1\n255\n\x80",
    ),
    (HALF, "x var-x\nz var-z\nf div x z", b"P5\n1 1\n255\n\xaa"),
    // A square changes twice as fast as its operand, where that is -1.
    (
        HALF,
        "x var-x\nz var-z\nq square x\nc const 2\ne sub q c\nf add e z",
        b"P5\n1 1\n255\n\x55",
    ),
    // Both slopes stop at the greatest number.
    (
        FLAT,
        "x var-x\nz var-z\nk const 1e9\na mul x k\nb mul a k\nc mul z k\nd mul c k\nf add b d",
        b"P5\n1 1\n255\n\x80",
    ),
    // What is added and taken away again has no slope left, and a clause that none needs bears on nothing.
    (
        FLAT,
        "x var-x\ny var-y\nz var-z\ng add x y\nf add z y\nh sub f y",
        b"P5\n1 1\n255\n\xff",
    ),
    // Rows lie from the top on.
    (
        &["shade", "w=3", "h=2", "d=3"],
        "x var-x\ny var-y\nz var-z\na square x\nb mul y a\nf add z b",
        b"P5\n3 2\n255\n\x00\xff\x00\x40\xff\x40",
    ),
    (
        &["shade", "w=3", "h=1", "d=3"],
        "x var-x\nz var-z\nf add x z",
        b"P5\n3 1\n255\n\x80\x80\x00",
    ),
    // One byte a pixel, and the maximum 255, however many layers there are.
    (
        &["shade", "w=3", "h=1", "d=300"],
        "x var-x\nz var-z\nf add x z",
        b"P5\n3 1\n255\n\x80\x80\x00",
    ),
    (
        &["shade", "w=3", "h=1", "d=1024"],
        "x var-x\nz var-z\nf add x z",
        b"P5\n3 1\n255\n\x80\x80\x00",
    ),
];

fn expect_pictures(rt: &impl Abort, alloc: Global, rows: &[Case]) -> Result<(), AllocError> {
    for (words, model, picture) in rows {
        let ending = Trial::new(words, model.as_bytes())
            .run(alloc, picture, b"")?
            .ending;
        assert!(rt;
            ending == Ending::wanted(Status::Done),
            "{words:?}: {model:?}: {ending:?}"
        );
    }
    Ok(())
}

#[test]
fn the_nearest_sample_inside_is_lit(rt: HostRuntime) -> Result<(), Fail> {
    expect_pictures(&rt, rt.alloc(), &CASES)?;
    Ok(())
}

// A ball before a slab, of 13 clauses. Its columns get their tops at different layers.
const BALL: &[u8] =
    b"x var-x\ny var-y\nz var-z\na square x\nb square y\nc add a b\nd square z\ne add c d\n\
    r const 0.5\nf sub e r\ng const 0.75\nm add z g\nh min f m";

// The map takes 4862 evaluations, as `height` does, and its slopes at most ten for each step and column.
// Its box and the two halves of that are traced for the map, and for the slopes once more.
#[test]
fn the_work_is_that_of_the_map_and_of_its_tops(rt: HostRuntime) -> Result<(), Fail> {
    let picture = Trial::new(&["shade", "w=7", "h=9", "d=7"], BALL).written(rt.alloc(), 128)?;
    assert_eq!(rt; picture.status, Status::Done);
    assert!(rt; picture.work.points > 4862);
    assert!(rt; picture.work.points <= 4862 + 10 * 13 * 7 * 9);
    assert_eq!(rt; picture.work.spans, 78);
    Ok(())
}

// How many bytes a write takes, the number of the write that fails, and what is written before it. The header has
// eleven bytes, and goes out at once with the pixel.
const FRONTS: [(u64, u64, &[u8]); 3] = [
    (12, 1, b""),
    (11, 2, b"P5\n1 1\n255\n"),
    (3, 4, b"P5\n1 1\n25"),
];

fn expect_fronts(
    rt: &impl Abort,
    alloc: Global,
    rows: &[(u64, u64, &[u8])],
) -> Result<(), AllocError> {
    for (chunk, failing, front) in rows {
        let mut trial = Trial::new(&["shade", "w=1", "h=1"], b"z var-z");
        trial.writes = Calls {
            chunk: *chunk,
            failing: *failing,
        };
        let ending = trial.run(alloc, front, b"modeller: write fault\n")?.ending;
        assert!(rt;
            ending == Ending::wanted(Status::WriteFault),
            "{failing}: {ending:?}"
        );
    }
    Ok(())
}

#[test]
fn a_picture_that_can_not_be_written_leaves_a_front(rt: HostRuntime) -> Result<(), Fail> {
    expect_fronts(&rt, rt.alloc(), &FRONTS)?;
    Ok(())
}
