// Meshes. They were worked out with exact integers, point by point and cell by cell.
use modeller_cmd::Status;
use std::alloc::{AllocError, Global};
use std::process::Abort;
use std::test::Fail;
use trial_runs::{Calls, Ending, Trial, Written};

// Words, a model, and the places of the vertices.
type Case = (&'static [&'static str], &'static str, &'static str);

// What stands before the 14 vertices round one inside point.
const HEAD: &str =
    "ply\nformat ascii 1.0\nelement vertex 14\nproperty double x\nproperty double y\n\
    property double z\nelement face 24\nproperty list uchar int vertex_indices\nend_header\n";

// The 24 faces round one inside point.
const FACES: &str =
    "3 0 3 1\n3 0 1 5\n3 0 2 3\n3 0 6 2\n3 0 5 4\n3 0 4 6\n3 1 3 7\n3 1 7 5\n3 2 8 3\n3 2 6 8\n\
    3 3 9 7\n3 3 8 9\n3 4 5 10\n3 4 10 6\n3 5 7 11\n3 5 11 10\n3 6 12 8\n3 6 10 12\n3 7 9 13\n\
    3 7 13 11\n3 8 13 9\n3 8 12 13\n3 10 11 13\n3 10 13 12\n";

// The mesh where nothing is inside.
const NOTHING: &[u8] =
    b"ply\nformat ascii 1.0\nelement vertex 0\nproperty double x\nproperty double y\n\
    property double z\nelement face 0\nproperty list uchar int vertex_indices\nend_header\n";

// A ball of radius 0.5.
const BALL: &str =
    "x var-x\ny var-y\nz var-z\na square x\nb square y\nc square z\nd add a b\ne add d c\n\
    r const 0.25\nf sub e r";

// The least number at the middle, and the greatest elsewhere.
const STEEP: &str =
    "x var-x\ny var-y\nz var-z\na square x\nb square y\nc square z\nd add a b\ne add d c\n\
    t const 0.0000000003\nm sub e t\no const 0\nf div m o";

// The raw number -1 at the middle, and the greatest elsewhere.
const SHALLOW: &str =
    "x var-x\ny var-y\nz var-z\na square x\nb square y\nc square z\nd add a b\ne add d c\n\
    t const 0.0000000003\nm sub e t\no const 0\nf div m o\nn neg t\ng max f n";

const CASES: [Case; 7] = [
    // The middle point alone is inside, with the value -0.25.
    (
        &["mesh", "n=2"],
        BALL,
        "-0.0833282470 -0.0833282470 -0.0833282470\n0.0000000000 -0.1250000000 -0.1250000000\n\
        -0.1250000000 0.0000000000 -0.1250000000\n0.0000000000 0.0000000000 -0.2500000000\n\
        -0.1250000000 -0.1250000000 0.0000000000\n0.0000000000 -0.2500000000 0.0000000000\n\
        -0.2500000000 0.0000000000 0.0000000000\n0.2500000000 0.0000000000 0.0000000000\n\
        0.0000000000 0.2500000000 0.0000000000\n0.1250000000 0.1250000000 0.0000000000\n\
        0.0000000000 0.0000000000 0.2500000000\n0.1250000000 0.0000000000 0.1250000000\n\
        0.0000000000 0.1250000000 0.1250000000\n0.0833282470 0.0833282470 0.0833282470\n",
    ),
    // All is inside, and the outermost layer is brought to 0: edges are cut at 65535 parts of 65536.
    (
        &["mesh", "n=2"],
        "a const -1",
        "-0.9999847412 -0.9999847412 -0.9999847412\n0.0000000000 -0.9999847412 -0.9999847412\n\
        -0.9999847412 0.0000000000 -0.9999847412\n0.0000000000 0.0000000000 -0.9999847412\n\
        -0.9999847412 -0.9999847412 0.0000000000\n0.0000000000 -0.9999847412 0.0000000000\n\
        -0.9999847412 0.0000000000 0.0000000000\n0.9999847412 0.0000000000 0.0000000000\n\
        0.0000000000 0.9999847412 0.0000000000\n0.9999847412 0.9999847412 0.0000000000\n\
        0.0000000000 0.0000000000 0.9999847412\n0.9999847412 0.0000000000 0.9999847412\n\
        0.0000000000 0.9999847412 0.9999847412\n0.9999847412 0.9999847412 0.9999847412\n",
    ),
    // The least number beside the greatest: edges are cut in the middle.
    (
        &["mesh", "n=2"],
        STEEP,
        "-0.5000000000 -0.5000000000 -0.5000000000\n0.0000000000 -0.5000000000 -0.5000000000\n\
        -0.5000000000 0.0000000000 -0.5000000000\n0.0000000000 0.0000000000 -0.5000000000\n\
        -0.5000000000 -0.5000000000 0.0000000000\n0.0000000000 -0.5000000000 0.0000000000\n\
        -0.5000000000 0.0000000000 0.0000000000\n0.5000000000 0.0000000000 0.0000000000\n\
        0.0000000000 0.5000000000 0.0000000000\n0.5000000000 0.5000000000 0.0000000000\n\
        0.0000000000 0.0000000000 0.5000000000\n0.5000000000 0.0000000000 0.5000000000\n\
        0.0000000000 0.5000000000 0.5000000000\n0.5000000000 0.5000000000 0.5000000000\n",
    ),
    // The raw number -1 beside the greatest: edges are cut at 1 part of 65536.
    (
        &["mesh", "n=2"],
        SHALLOW,
        "-0.0000152587 -0.0000152587 -0.0000152587\n0.0000000000 -0.0000152587 -0.0000152587\n\
        -0.0000152587 0.0000000000 -0.0000152587\n0.0000000000 0.0000000000 -0.0000152587\n\
        -0.0000152587 -0.0000152587 0.0000000000\n0.0000000000 -0.0000152587 0.0000000000\n\
        -0.0000152587 0.0000000000 0.0000000000\n0.0000152587 0.0000000000 0.0000000000\n\
        0.0000000000 0.0000152587 0.0000000000\n0.0000152587 0.0000152587 0.0000000000\n\
        0.0000000000 0.0000000000 0.0000152587\n0.0000152587 0.0000000000 0.0000152587\n\
        0.0000000000 0.0000152587 0.0000152587\n0.0000152587 0.0000152587 0.0000152587\n",
    ),
    // One point is inside, beside the outermost layer.
    (
        &["mesh", "n=3"],
        "x var-x\ny var-y\nz var-z\na max x y\nb max a z",
        "-0.9999898276 -0.9999898276 -0.9999898276\n-0.3333333334 -0.9999898276 -0.9999898276\n\
        -0.9999898276 -0.3333333334 -0.9999898276\n-0.3333333334 -0.3333333334 -0.9999898276\n\
        -0.9999898276 -0.9999898276 -0.3333333334\n-0.3333333334 -0.9999898276 -0.3333333334\n\
        -0.9999898276 -0.3333333334 -0.3333333334\n-0.0000000002 -0.3333333334 -0.3333333334\n\
        -0.3333333334 -0.0000000002 -0.3333333334\n-0.0000000002 -0.0000000002 -0.3333333334\n\
        -0.3333333334 -0.3333333334 -0.0000000002\n-0.0000000002 -0.3333333334 -0.0000000002\n\
        -0.3333333334 -0.0000000002 -0.0000000002\n-0.0000000002 -0.0000000002 -0.0000000002\n",
    ),
    // Each axis has its own ends.
    (
        &[
            "mesh", "n=2", "x0=-2", "x1=2", "y0=0", "y1=1", "z0=0.25", "z1=0.5",
        ],
        "a const -1",
        "-1.9999694824 0.0000076293 0.2500019073\n0.0000000000 0.0000076293 0.2500019073\n\
        -1.9999694824 0.5000000000 0.2500019073\n0.0000000000 0.5000000000 0.2500019073\n\
        -1.9999694824 0.0000076293 0.3750000000\n0.0000000000 0.0000076293 0.3750000000\n\
        -1.9999694824 0.5000000000 0.3750000000\n1.9999694824 0.5000000000 0.3750000000\n\
        0.0000000000 0.9999923706 0.3750000000\n1.9999694824 0.9999923706 0.3750000000\n\
        0.0000000000 0.5000000000 0.4999980926\n1.9999694824 0.5000000000 0.4999980926\n\
        0.0000000000 0.9999923706 0.4999980926\n1.9999694824 0.9999923706 0.4999980926\n",
    ),
    // The smallest cells that there may be, along x.
    (
        &["mesh", "n=2", "x0=0", "x1=0.000030517578125"],
        "a const -1",
        "0.0000000002 -0.9999847412 -0.9999847412\n0.0000152587 -0.9999847412 -0.9999847412\n\
        0.0000000002 0.0000000000 -0.9999847412\n0.0000152587 0.0000000000 -0.9999847412\n\
        0.0000000002 -0.9999847412 0.0000000000\n0.0000152587 -0.9999847412 0.0000000000\n\
        0.0000000002 0.0000000000 0.0000000000\n0.0000305173 0.0000000000 0.0000000000\n\
        0.0000152587 0.9999847412 0.0000000000\n0.0000305173 0.9999847412 0.0000000000\n\
        0.0000152587 0.0000000000 0.9999847412\n0.0000305173 0.0000000000 0.9999847412\n\
        0.0000152587 0.9999847412 0.9999847412\n0.0000305173 0.9999847412 0.9999847412\n",
    ),
];

// Words and a model of which no grid point is inside.
const EMPTY: [(&[&str], &str); 3] = [
    (&["mesh", "n=4"], "a const 1"),
    // With one cell every point lies in the outermost layer.
    (&["mesh", "n=1"], "a const -1"),
    // The value 0 is outside: of the inner points here, the middle has it.
    (&["mesh", "n=2"], "x var-x"),
];

// Draws a mesh round one inside point, whose vertices should stand at these places.
fn mesh_round_a_point(alloc: Global, trial: Trial, places: &str) -> Result<Ending, AllocError> {
    let text = format!(in alloc; "{HEAD}{places}{FACES}")?;
    Ok(trial.run(alloc, text.as_bytes(), b"")?.ending)
}

fn expect_meshes(rt: &impl Abort, alloc: Global, rows: &[Case]) -> Result<(), AllocError> {
    for (words, model, places) in rows {
        let trial = Trial::new(words, model.as_bytes());
        let ending = mesh_round_a_point(alloc, trial, places)?;
        assert!(rt;
            ending == Ending::wanted(Status::Done),
            "{words:?}: {model:?}: {ending:?}"
        );
    }
    Ok(())
}

#[test]
fn the_mesh_parts_the_inside_from_the_outside(rt: HostRuntime) -> Result<(), Fail> {
    expect_meshes(&rt, rt.alloc(), &CASES)?;
    Ok(())
}

fn expect_empty(
    rt: &impl Abort,
    alloc: Global,
    rows: &[(&[&str], &str)],
) -> Result<(), AllocError> {
    for (words, model) in rows {
        let ending = Trial::new(words, model.as_bytes())
            .run(alloc, NOTHING, b"")?
            .ending;
        assert!(rt;
            ending == Ending::wanted(Status::Done),
            "{words:?}: {ending:?}"
        );
    }
    Ok(())
}

#[test]
fn where_nothing_is_inside_the_mesh_is_empty(rt: HostRuntime) -> Result<(), Fail> {
    expect_empty(&rt, rt.alloc(), &EMPTY)?;
    Ok(())
}

// Words, a model, and how many bytes the mesh has, with their FNV-1a sum of 32 bits.
type Large = (&'static [&'static str], &'static str, usize, u32);

const LARGE: [Large; 3] = [
    (&["mesh", "n=7"], BALL, 13562, 3305145587),
    // Its points stand in eight bricks.
    (&["mesh", "n=9"], BALL, 20141, 2624381738),
    (
        &["mesh", "n=6", "z0=-0.75"],
        "x var-x\ny var-y\na mul x y\nb neg a",
        21023,
        149790284,
    ),
];

// The FNV-1a sum of bytes.
fn sum(bytes: &[u8]) -> u32 {
    let mut sum = 2_166_136_261u32;
    for byte in bytes {
        sum = (sum ^ u32::from(*byte)).wrapping_mul(16_777_619);
    }
    sum
}

/// How many bytes a mesh has, and their FNV-1a sum, where it is drawn and begins so.
pub fn length_and_sum(mesh: &Written, head: &[u8]) -> Option<(usize, u32)> {
    if mesh.status == Status::Done && mesh.bytes.starts_with(head) {
        return Some((mesh.bytes.len(), sum(&mesh.bytes)));
    }
    None
}

// Draws a mesh of so many bytes.
fn large(alloc: Global, trial: Trial, length: usize) -> Result<Option<(usize, u32)>, AllocError> {
    Ok(length_and_sum(&trial.written(alloc, length)?, b""))
}

fn expect_large(rt: &impl Abort, alloc: Global, rows: &[Large]) -> Result<(), AllocError> {
    for (words, model, length, expected) in rows {
        let trial = Trial::new(words, model.as_bytes());
        let found = large(alloc, trial, *length)?;
        assert!(rt; found == Some((*length, *expected)), "{words:?}: {found:?}");
    }
    Ok(())
}

#[test]
fn cells_stand_in_their_order(rt: HostRuntime) -> Result<(), Fail> {
    expect_large(&rt, rt.alloc(), &LARGE)?;
    Ok(())
}

/// Words, a model, and the most evaluations, hulls and corners that its mesh takes.
pub type Most = (&'static [&'static str], &'static str, u64, u64, u64);

const WORK: [Most; 4] = [
    (&["mesh", "n=2"], BALL, 270, 90, 360),
    (&["mesh", "n=9"], BALL, 2080, 2810, 11240),
    (&["mesh", "n=4"], "a const 1", 0, 1, 4),
    (&["mesh", "n=4"], "a const -1", 124, 73, 292),
];

// Whether the mesh of a row is drawn, into room for so many bytes, and takes no more than that.
fn takes_at_most(alloc: Global, row: &Most, room: usize) -> Result<bool, AllocError> {
    let (words, model, points, spans, corners) = row;
    let mesh = Trial::new(words, model.as_bytes()).written(alloc, room)?;
    Ok(
        mesh.status == Status::Done
            && mesh.work.points <= *points
            && mesh.work.spans <= *spans
            && mesh.work.corners <= *corners,
    )
}

/// Each mesh is drawn, into room for so many bytes, and takes no more than its row says.
pub fn expect_at_most(
    rt: &impl Abort,
    alloc: Global,
    rows: &[Most],
    room: usize,
) -> Result<(), AllocError> {
    for row in rows {
        let is_within = takes_at_most(alloc, row, room)?;
        let (words, model, _, _, _) = row;
        assert!(rt; is_within, "{words:?}: {model:?}");
    }
    Ok(())
}

#[test]
fn only_the_corners_of_working_cells_are_evaluated(rt: HostRuntime) -> Result<(), Fail> {
    expect_at_most(&rt, rt.alloc(), &WORK, 65536)?;
    Ok(())
}

#[test]
fn a_mesh_that_can_not_be_written_leaves_a_front(rt: HostRuntime) -> Result<(), Fail> {
    let mut trial = Trial::new(&["mesh", "n=1"], b"a const -1");
    trial.writes = Calls {
        chunk: 5,
        failing: 3,
    };
    let ran = trial.run(rt.alloc(), b"ply\nformat", b"modeller: write fault\n")?;
    assert_eq!(rt; ran.ending, Ending::wanted(Status::WriteFault));
    Ok(())
}
