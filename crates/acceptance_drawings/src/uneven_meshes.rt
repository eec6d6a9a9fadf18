// Meshes with a number of cells of its own along each axis. They were worked out with exact integers,
// point by point and cell by cell.
use crate::meshes::{Most, expect_at_most, length_and_sum};
use modeller_cmd::Status;
use std::alloc::{AllocError, Global};
use std::process::Abort;
use std::test::Fail;
use trial_runs::{Ending, Trial};

// The whole text of a mesh of 3 by 2 by 2 cells whose points are all inside: the outermost layer is
// brought to 0, and the two points in the middle are wrapped.
const THREE_BY_TWO_BY_TWO: &str =
    "ply\nformat ascii 1.0\nelement vertex 26\nproperty double x\nproperty double y\n\
    property double z\nelement face 48\nproperty list uchar int vertex_indices\nend_header\n\
    -0.9999898276 -0.9999847412 -0.9999847412\n-0.3333333334 -0.9999847412 -0.9999847412\n\
    -0.3333231611 -0.9999847412 -0.9999847412\n0.3333333332 -0.9999847412 -0.9999847412\n\
    -0.9999898276 0.0000000000 -0.9999847412\n-0.3333333334 0.0000000000 -0.9999847412\n\
    -0.3333231611 0.0000000000 -0.9999847412\n0.3333333332 0.0000000000 -0.9999847412\n\
    -0.9999898276 -0.9999847412 0.0000000000\n-0.3333333334 -0.9999847412 0.0000000000\n\
    -0.3333231611 -0.9999847412 0.0000000000\n0.3333333332 -0.9999847412 0.0000000000\n\
    -0.9999898276 0.0000000000 0.0000000000\n-0.3333333334 0.9999847412 0.0000000000\n\
    0.3333231606 0.9999847412 0.0000000000\n-0.3333333334 0.0000000000 0.9999847412\n\
    0.3333231606 0.0000000000 0.9999847412\n-0.3333333334 0.9999847412 0.9999847412\n\
    0.3333231606 0.9999847412 0.9999847412\n0.9999898273 0.0000000000 0.0000000000\n\
    0.3333333332 0.9999847412 0.0000000000\n0.9999898273 0.9999847412 0.0000000000\n\
    0.3333333332 0.0000000000 0.9999847412\n0.9999898273 0.0000000000 0.9999847412\n\
    0.3333333332 0.9999847412 0.9999847412\n0.9999898273 0.9999847412 0.9999847412\n\
    3 0 5 1\n3 0 1 9\n3 0 4 5\n3 0 12 4\n3 0 9 8\n3 0 8 12\n3 2 7 3\n3 2 3 11\n3 2 6 7\n\
    3 1 5 6\n3 1 6 2\n3 2 11 10\n3 9 1 2\n3 9 2 10\n3 3 7 19\n3 3 19 11\n3 4 13 5\n\
    3 4 12 13\n3 6 20 7\n3 5 14 20\n3 5 20 6\n3 5 13 14\n3 7 21 19\n3 7 20 21\n3 8 9 15\n\
    3 8 15 12\n3 10 11 22\n3 16 9 10\n3 16 10 22\n3 9 16 15\n3 11 19 23\n3 11 23 22\n\
    3 12 17 13\n3 12 15 17\n3 14 18 24\n3 14 24 20\n3 18 16 22\n3 18 22 24\n3 13 18 14\n\
    3 13 17 18\n3 15 16 18\n3 15 18 17\n3 19 21 25\n3 19 25 23\n3 20 25 21\n3 20 24 25\n\
    3 22 23 25\n3 22 25 24\n";

// Where nothing is inside.
const NOTHING: &str =
    "ply\nformat ascii 1.0\nelement vertex 0\nproperty double x\nproperty double y\n\
    property double z\nelement face 0\nproperty list uchar int vertex_indices\nend_header\n";

// Words, a model, and the whole text of its mesh.
type Whole = (&'static [&'static str], &'static str, &'static str);

const WHOLE: [Whole; 6] = [
    (
        &["mesh", "nx=3", "ny=2", "nz=2"],
        "a const -1",
        THREE_BY_TWO_BY_TWO,
    ),
    // What is given for all axes stands where an axis has no number of its own.
    (&["mesh", "nx=3", "n=2"], "a const -1", THREE_BY_TWO_BY_TWO),
    (&["mesh", "nx=512", "ny=512", "nz=64"], "a const 1", NOTHING),
    // With one cell along an axis every point lies in the outermost layer.
    (&["mesh", "nx=1", "n=4"], "a const -1", NOTHING),
    (&["mesh", "ny=1", "n=4"], "a const -1", NOTHING),
    (&["mesh", "nz=1", "n=4"], "a const -1", NOTHING),
];

fn expect_texts(rt: &impl Abort, alloc: Global, rows: &[Whole]) -> Result<(), AllocError> {
    for (words, model, text) in rows {
        let ending = Trial::new(words, model.as_bytes())
            .run(alloc, text.as_bytes(), b"")?
            .ending;
        assert!(rt;
            ending == Ending::wanted(Status::Done),
            "{words:?}: {ending:?}"
        );
    }
    Ok(())
}

#[test]
fn small_meshes_have_their_texts(rt: HostRuntime) -> Result<(), Fail> {
    expect_texts(&rt, rt.alloc(), &WHOLE)?;
    Ok(())
}

// A slanted solid of no symmetry, which the view cuts off along z.
const SLANTED: &str =
    "x var-x\ny var-y\nz var-z\no const 0.21\na sub x o\nb square a\np const -0.13\nc sub y p\n\
    d square c\nq const 0.34\ne sub z q\nf square e\nt const 2\ng mul t d\nh const 0.5\ni mul h f\n\
    j add b g\nk add j i\nl mul x y\nu const 0.3\nm mul u l\nn add k m\nr const 0.4\ns sub n r";

// The numbers of cells, how many vertices, faces and bytes the mesh has, and the FNV-1a sum of 32 bits
// of its text.
type Turned = (&'static [&'static str], u32, u32, usize, u32);

// None of the numbers of cells is one of whole bricks, and most are of more than one.
const TURNED: [Turned; 6] = [
    (
        &["mesh", "nx=9", "ny=17", "nz=25"],
        1656,
        3308,
        116485,
        3434042619,
    ),
    (
        &["mesh", "nx=9", "ny=25", "nz=17"],
        1528,
        3052,
        107035,
        1769562450,
    ),
    (
        &["mesh", "nx=17", "ny=9", "nz=25"],
        1814,
        3624,
        128076,
        3237454783,
    ),
    (
        &["mesh", "nx=17", "ny=25", "nz=9"],
        1388,
        2772,
        96635,
        1332376005,
    ),
    (
        &["mesh", "nx=25", "ny=9", "nz=17"],
        1792,
        3580,
        126445,
        2237458244,
    ),
    (
        &["mesh", "nx=25", "ny=17", "nz=9"],
        1450,
        2896,
        101165,
        2490764282,
    ),
];

// What the header says of the places of vertices.
const PLACES: &str = "property double x\nproperty double y\nproperty double z\n";

// The length and the sum of the slanted solid's mesh, whose header should tell these numbers.
fn slanted(
    alloc: Global,
    words: &[&str],
    (vertices, faces): (u32, u32),
    length: usize,
) -> Result<Option<(usize, u32)>, AllocError> {
    let head = format!(in alloc;
        "ply\nformat ascii 1.0\nelement vertex {vertices}\n{PLACES}element face {faces}\n"
    )?;
    let mesh = Trial::new(words, SLANTED.as_bytes()).written(alloc, length)?;
    Ok(length_and_sum(&mesh, head.as_bytes()))
}

fn expect_turned(rt: &impl Abort, alloc: Global, rows: &[Turned]) -> Result<(), AllocError> {
    for (words, vertices, faces, length, expected) in rows {
        let found = slanted(alloc, words, (*vertices, *faces), *length)?;
        assert!(rt; found == Some((*length, *expected)), "{words:?}: {found:?}");
    }
    Ok(())
}

#[test]
fn each_axis_has_its_own_cells(rt: HostRuntime) -> Result<(), Fail> {
    expect_turned(&rt, rt.alloc(), &TURNED)?;
    Ok(())
}

const WORK: [Most; 6] = [
    // A plane across each axis.
    (
        &["mesh", "nx=9", "ny=17", "nz=25"],
        "x var-x\no const 0.3\na sub x o",
        7056,
        7659,
        30636,
    ),
    (
        &["mesh", "nx=9", "ny=17", "nz=25"],
        "y var-y\no const 0.3\na sub y o",
        6576,
        7917,
        31668,
    ),
    (
        &["mesh", "nx=9", "ny=17", "nz=25"],
        "z var-z\no const 0.3\na sub z o",
        6192,
        8433,
        33732,
    ),
    // Each of the 2 * 513 * 513 points lies in the outermost layer.
    (
        &["mesh", "nx=1", "ny=512", "nz=512"],
        "a const -1",
        526338,
        349525,
        1398100,
    ),
    (
        &["mesh", "nx=512", "ny=1", "nz=512"],
        "a const -1",
        526338,
        349525,
        1398100,
    ),
    (
        &["mesh", "nx=512", "ny=512", "nz=1"],
        "a const -1",
        526338,
        349525,
        1398100,
    ),
];

#[test]
fn uneven_grids_take_no_more_work_than_their_own(rt: HostRuntime) -> Result<(), Fail> {
    expect_at_most(&rt, rt.alloc(), &WORK, 1048576)?;
    Ok(())
}
