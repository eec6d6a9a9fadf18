// Meshes that are checked. What is found of each was worked out by hand.
use modeller_cmd::Status;
use std::alloc::{AllocError, Global};
use std::process::Abort;
use std::test::Fail;
use trial_runs::{Ending, Ran, Trial};

// How many vertices and faces a file announces, and its lines behind the header.
type Body = (u32, u32, &'static str);

// What is found of meshes. A vertex has one token a line here.
const FOUND: [(Body, &str); 15] = [
    // A tetrahedron, also with a vertex that no face has, above those of the faces or among them.
    (
        (4, 4, "0\n0\n0\n0\n3 0 2 1\n3 0 1 3\n3 0 3 2\n3 1 2 3\n"),
        "closed manifold 4 4",
    ),
    (
        (5, 4, "0\n0\n0\n0\n0\n3 0 2 1\n3 0 1 3\n3 0 3 2\n3 1 2 3\n"),
        "vertex 4",
    ),
    (
        (5, 4, "0\n0\n0\n0\n0\n3 0 3 1\n3 0 1 4\n3 0 4 3\n3 1 3 4\n"),
        "vertex 2",
    ),
    // All its faces turned, and one of them.
    (
        (4, 4, "0\n0\n0\n0\n3 0 1 2\n3 0 3 1\n3 0 2 3\n3 1 3 2\n"),
        "closed manifold 4 4",
    ),
    (
        (4, 4, "0\n0\n0\n0\n3 0 2 1\n3 0 3 1\n3 0 3 2\n3 1 2 3\n"),
        "edge 1 0",
    ),
    // A face and its back are closed, but round a vertex there are two faces only.
    ((3, 2, "0\n0\n0\n3 0 1 2\n3 0 2 1\n"), "vertex 0"),
    ((3, 2, "0\n0\n0\n3 0 1 2\n3 0 1 2\n"), "edge 0 1"),
    // Two tetrahedra apart, and two on one edge.
    (
        (
            8,
            8,
            "0\n0\n0\n0\n0\n0\n0\n0\n3 0 2 1\n3 0 1 3\n3 0 3 2\n3 1 2 3\n3 4 6 5\n3 4 5 7\n\
            3 4 7 6\n3 5 6 7\n",
        ),
        "closed manifold 8 8",
    ),
    (
        (
            6,
            8,
            "0\n0\n0\n0\n0\n0\n3 0 2 1\n3 0 1 3\n3 0 3 2\n3 1 2 3\n3 0 4 1\n3 0 1 5\n3 0 5 4\n\
            3 1 4 5\n",
        ),
        "edge 1 0",
    ),
    // Two on one vertex, and with an open face behind them.
    (
        (
            7,
            8,
            "0\n0\n0\n0\n0\n0\n0\n3 0 2 1\n3 0 1 3\n3 0 3 2\n3 1 2 3\n3 0 5 4\n3 0 4 6\n3 0 6 5\n\
            3 4 5 6\n",
        ),
        "vertex 0",
    ),
    (
        (
            9,
            9,
            "0\n0\n0\n0\n0\n0\n0\n0\n0\n3 0 2 1\n3 0 1 3\n3 0 3 2\n3 1 2 3\n3 0 5 4\n3 0 4 6\n\
            3 0 6 5\n3 4 5 6\n3 6 7 8\n",
        ),
        "edge 6 7",
    ),
    // A face with a vertex twice comes before an edge.
    ((4, 2, "0\n0\n0\n0\n3 0 1 2\n3 3 3 3\n"), "face 1"),
    ((3, 1, "0\n0\n0\n3 0 1 0\n"), "face 0"),
    // No faces.
    ((0, 0, ""), "closed manifold 0 0"),
    ((1, 0, "#\n"), "vertex 0"),
];

// Checks a file that should be told so.
fn check(alloc: Global, text: &str, told: &str) -> Result<Ran, AllocError> {
    let line = format!(in alloc; "{told}\n")?;
    Trial::new(&["check"], text.as_bytes()).run(alloc, line.as_bytes(), b"")
}

// Checks a file of such a body.
fn check_body(
    alloc: Global,
    (vertices, faces, lines): Body,
    told: &str,
) -> Result<Ran, AllocError> {
    let text = format!(in alloc;
        "ply\nformat ascii 1.0\nelement vertex {vertices}\nproperty float x\n\
        element face {faces}\nproperty list uchar int vertex_indices\nend_header\n{lines}"
    )?;
    check(alloc, &text, told)
}

fn expect_found(rt: &impl Abort, alloc: Global, rows: &[(Body, &str)]) -> Result<(), AllocError> {
    for (body, told) in rows {
        let ran = check_body(alloc, *body, told)?;
        let is_told = ran.ending == Ending::wanted(Status::Done) && ran.work.points == 0;
        assert!(rt; is_told, "{told:?}: {ran:?}");
    }
    Ok(())
}

#[test]
fn what_breaks_a_mesh_first_is_told(rt: HostRuntime) -> Result<(), Fail> {
    expect_found(&rt, rt.alloc(), &FOUND)?;
    Ok(())
}

// Models, and what is found of their meshes of two cells a side: one inside point, and none.
const MADE: [(&[u8], &[u8]); 2] = [
    (
        b"x var-x\ny var-y\nz var-z\na square x\nb square y\nc square z\nd add a b\ne add d c\n\
        r const 0.25\nf sub e r",
        b"closed manifold 14 24\n",
    ),
    (b"a const 1", b"closed manifold 0 0\n"),
];

// Makes the mesh of a model and checks it, which should be told so.
fn check_made(alloc: Global, model: &[u8], told: &[u8]) -> Result<Ending, AllocError> {
    let made = Trial::new(&["mesh", "n=2"], model).written(alloc, 2048)?;
    Ok(
        Trial::new(&["check"], &made.bytes)
            .run(alloc, told, b"")?
            .ending,
    )
}

fn expect_made(rt: &impl Abort, alloc: Global, rows: &[(&[u8], &[u8])]) -> Result<(), AllocError> {
    for (model, told) in rows {
        let ending = check_made(alloc, model, told)?;
        assert!(rt;
            ending == Ending::wanted(Status::Done),
            "{told:?}: {ending:?}"
        );
    }
    Ok(())
}

#[test]
fn a_mesh_that_is_made_is_closed(rt: HostRuntime) -> Result<(), Fail> {
    expect_made(&rt, rt.alloc(), &MADE)?;
    Ok(())
}

// Texts that are no mesh, the lines that are noted, and the reasons. Line 0 stands for the whole text.
const REFUSED: [(&str, u32, &str); 9] = [
    ("", 0, "NotPly"),
    ("\n \n", 0, "NotPly"),
    ("\ncomment x\nply\n", 2, "NotPly"),
    ("ply\nformat binary_little_endian 1.0\n", 2, "BadHeader"),
    (
        "ply\nformat ascii 1.0\nelement vertex 0\nproperty float x\nelement face 2147483648\n",
        5,
        "BadHeader",
    ),
    (
        "ply\nformat ascii 1.0\nelement vertex 1\nproperty float x\nelement face 0\n\
        property list uchar int vertex_indices\nend_header\n\ncomment x\n",
        9,
        "BadVertex",
    ),
    (
        "ply\nformat ascii 1.0\nelement vertex 1\nproperty float x\nelement face 1\n\
        property list uchar int vertex_indices\nend_header\n0\n4 0 0 0 0\n",
        9,
        "BadFace",
    ),
    (
        "ply\nformat ascii 1.0\nelement vertex 1\nproperty float x\nelement face 1\n\
        property list uchar int vertex_indices\nend_header\n0\n3 0 0 4294967296\n",
        9,
        "BadIndex",
    ),
    (
        "ply\r\ncomment x\nformat ascii 1.0\nelement vertex 0\nproperty float x\n\
        element face 2147483647\nproperty list uchar int vertex_index\nend_header\n",
        0,
        "TooShort",
    ),
];

fn expect_refusals(
    rt: &impl Abort,
    alloc: Global,
    rows: &[(&str, u32, &str)],
) -> Result<(), AllocError> {
    for (text, line, reason) in rows {
        let trial = Trial::new(&["check"], text.as_bytes());
        let ending = trial.run_refused(alloc, "line", *line, reason)?.ending;
        assert!(rt;
            ending == Ending::wanted(Status::BadModel),
            "{text:?}: {ending:?}"
        );
    }
    Ok(())
}

#[test]
fn the_first_bad_line_is_noted(rt: HostRuntime) -> Result<(), Fail> {
    expect_refusals(&rt, rt.alloc(), &REFUSED)?;
    Ok(())
}
