// Contours as path data. The paths were worked out from the definition, over all cells.
use modeller_cmd::Status;
use std::alloc::{AllocError, Global};
use std::process::Abort;
use std::test::Fail;
use trial_runs::{Calls, Ending, Trial};

// Words, a model, and the paths.
type Case = (&'static [&'static str], &'static str, &'static [u8]);

const CASES: [Case; 11] = [
    // Round the middle one of nine points, whose border is outside.
    (
        &["contour", "n=2"],
        "a const -1",
        b"M -0.9999847412 -0.9999847412 L 0.0000000000 -0.9999847412 \
        L 0.9999847412 0.0000000000 L 0.9999847412 0.9999847412 L 0.0000000000 0.9999847412 \
        L -0.9999847412 0.0000000000 Z\n",
    ),
    // No point inside, and none but those of the border.
    (&["contour", "n=4"], "a const 1", b""),
    (&["contour", "n=1"], "a const -1", b""),
    (&["contour", "n=2"], "x var-x", b""),
    // Two inside points along the cut of a cell are joined, and across it they are not.
    (
        &["contour", "n=3"],
        "x var-x\ny var-y\np mul x y\nk const 0.05\nf sub k p",
        b"M -0.9999898276 -0.9999898276 L -0.3333333334 -0.9999898276 \
        L -0.1500040693 -0.3333333334 L 0.3333333332 0.1500040688 \
        L 0.9999898273 0.3333333332 L 0.9999898273 0.9999898273 L 0.3333333332 0.9999898273 \
        L 0.1500040688 0.3333333332 L -0.3333333334 -0.1500040693 \
        L -0.9999898276 -0.3333333334 Z\n",
    ),
    (
        &["contour", "n=3"],
        "x var-x\ny var-y\np mul x y\nk const 0.05\nf add k p",
        b"M 0.2416687009 -0.4249979658 L 0.3333333332 -0.9999898276 \
        L 0.9999898273 -0.3333333334 L 0.4249979653 -0.2416687014 \
        L 0.3333333332 -0.1500040693 L 0.1500040688 -0.3333333334 Z\n\
        M -0.4249979658 0.2416687009 L -0.3333333334 0.1500040688 \
        L -0.1500040693 0.3333333332 L -0.2416687014 0.4249979653 \
        L -0.3333333334 0.9999898273 L -0.9999898276 0.3333333332 Z\n",
    ),
    // A view that is wider than it is high.
    (
        &["contour", "n=2", "x0=0", "x1=2", "y0=0", "y1=1"],
        "a const -1",
        b"M 0.0000152587 0.0000076293 L 1.0000000000 0.0000076293 L 1.9999847412 0.5000000000 \
        L 1.9999847412 0.9999923706 L 1.0000000000 0.9999923706 \
        L 0.0000152587 0.5000000000 Z\n",
    ),
    // Where an edge is cut by the values of its ends, also by the least and the greatest number.
    (
        &["contour", "n=2"],
        "x var-x\nh const 0.25\nf sub x h",
        b"M -0.9999847412 -0.9999847412 L 0.0000000000 -0.9999847412 \
        L 0.2500000000 0.0000000000 L 0.2500000000 0.2500000000 L 0.0000000000 0.9999847412 \
        L -0.9999847412 0.0000000000 Z\n",
    ),
    (
        &["contour", "n=3"],
        "x var-x\nk const 1e12\nf mul x k",
        b"M -0.9999898276 -0.9999898276 L -0.3333333334 -0.9999898276 \
        L -0.0000000002 -0.3333333334 L -0.0000000002 -0.0000000002 \
        L -0.0000000002 0.3333333332 L -0.0000000002 0.6666666665 \
        L -0.3333333334 0.9999898273 L -0.9999898276 0.3333333332 \
        L -0.9999898276 -0.3333231611 L -0.9999898276 -0.3333333334 Z\n",
    ),
    // At the height that is asked for.
    (
        &["contour", "n=2", "z=1"],
        "z var-z\nf neg z",
        b"M -0.9999847412 -0.9999847412 L 0.0000000000 -0.9999847412 \
        L 0.9999847412 0.0000000000 L 0.9999847412 0.9999847412 L 0.0000000000 0.9999847412 \
        L -0.9999847412 0.0000000000 Z\n",
    ),
    (&["contour", "n=2", "z=-1"], "z var-z\nf neg z", b""),
];

fn expect_paths(rt: &impl Abort, alloc: Global, rows: &[Case]) -> Result<(), AllocError> {
    for (words, model, paths) in rows {
        let ending = Trial::new(words, model.as_bytes())
            .run(alloc, paths, b"")?
            .ending;
        assert!(rt;
            ending == Ending::wanted(Status::Done),
            "{words:?}: {model:?}: {ending:?}"
        );
    }
    Ok(())
}

#[test]
fn the_outline_is_closed_loops(rt: HostRuntime) -> Result<(), Fail> {
    expect_paths(&rt, rt.alloc(), &CASES)?;
    Ok(())
}

#[test]
fn paths_that_can_not_be_written_leave_a_front(rt: HostRuntime) -> Result<(), Fail> {
    let mut trial = Trial::new(&["contour", "n=2"], b"a const -1");
    trial.writes = Calls {
        chunk: 5,
        failing: 2,
    };
    let ran = trial.run(rt.alloc(), b"M -0.", b"modeller: write fault\n")?;
    assert_eq!(rt; ran.ending, Ending::wanted(Status::WriteFault));
    Ok(())
}
