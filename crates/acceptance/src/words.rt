// Words that ask for nothing that can be done. Nothing is written or read then, and the note tells why.
use modeller_cmd::Status;
use std::alloc::{AllocError, Global};
use std::process::Abort;
use std::test::Fail;
use trial_runs::{DISC, Ending, Rest, Trial};

// Words, the number of the one that is noted, and the reason.
type Case = (&'static [&'static str], u32, &'static str);

// Words of all verbs, and of images.
const IMAGES: [Case; 24] = [
    (&[], 0, "NoVerb"),
    (&["draw"], 1, "UnknownVerb"),
    (&["Render", "w"], 1, "UnknownVerb"),
    (&["render", "w"], 2, "NotASetting"),
    (&["render", ""], 2, "NotASetting"),
    (&["text", "w"], 2, "NotASetting"),
    (&["render", "n=3"], 2, "UnknownSetting"),
    (&["render", "z0=1"], 2, "UnknownSetting"),
    (&["render", "W=3"], 2, "UnknownSetting"),
    (&["render", "=3"], 2, "UnknownSetting"),
    (&["render", "\u{e9}=3"], 2, "UnknownSetting"),
    (&["text", "w=3"], 2, "UnknownSetting"),
    (&["render", "w=3", "w=3"], 3, "Twice"),
    (&["render", "w=3", "w=a"], 3, "Twice"),
    (&["render", "w=a"], 2, "BadValue"),
    (&["render", "w="], 2, "BadValue"),
    (&["render", "x0==1"], 2, "BadValue"),
    (&["render", "x0=."], 2, "BadValue"),
    (&["render", "w=+3"], 2, "BadValue"),
    // 21 digits are no count, 20 are one.
    (&["render", "w=000000000000000000003"], 2, "BadValue"),
    (&["render", "w=99999999999999999999"], 2, "OutOfRange"),
    (&["render", "w=0"], 2, "OutOfRange"),
    (&["render", "h=3", "w=4097"], 3, "OutOfRange"),
    (&["mesh", "n=257"], 2, "OutOfRange"),
];

// Words of meshes.
const MESHES: [Case; 27] = [
    // Cells along each axis.
    (&["render", "nx=3"], 2, "UnknownSetting"),
    (&["count", "ny=3"], 2, "UnknownSetting"),
    (&["height", "nz=3"], 2, "UnknownSetting"),
    (&["forge", "nx=3"], 2, "UnknownSetting"),
    (&["mesh", "nx=3", "n=4", "nx=3"], 4, "Twice"),
    (&["mesh", "nx"], 2, "NotASetting"),
    (&["mesh", "nx=0"], 2, "OutOfRange"),
    (&["mesh", "nx=513"], 2, "OutOfRange"),
    (&["mesh", "ny=0"], 2, "OutOfRange"),
    (&["mesh", "ny=513"], 2, "OutOfRange"),
    (&["mesh", "nz=0"], 2, "OutOfRange"),
    (&["mesh", "nz=513"], 2, "OutOfRange"),
    // What all axes share keeps its own range where no axis uses it.
    (&["mesh", "nx=4", "ny=4", "nz=4", "n=257"], 5, "OutOfRange"),
    // 17039360 cells, and 16777225, the least number above 16777216 that three counts make.
    (&["mesh", "nx=512", "ny=512", "nz=65"], 0, "TooManyCells"),
    (&["mesh", "nx=145", "ny=317", "nz=365"], 0, "TooManyCells"),
    (&["mesh", "nz=145", "nx=317", "ny=365"], 0, "TooManyCells"),
    // All three reasons that are asked of all words together hold, then the last two.
    (
        &[
            "mesh",
            "nx=512",
            "ny=512",
            "nz=65",
            "x0=0",
            "x1=0.0078",
            "y0=1",
            "y1=0",
        ],
        0,
        "EmptySpan",
    ),
    (
        &["mesh", "nx=512", "ny=512", "nz=65", "x0=0", "x1=0.0078"],
        0,
        "CellTooSmall",
    ),
    // One raw unit less than 512 times 65536, along y and along z.
    (
        &[
            "mesh",
            "ny=512",
            "y0=0",
            "y1=0.00781249976716935634613037109375",
        ],
        0,
        "CellTooSmall",
    ),
    (
        &[
            "mesh",
            "nz=512",
            "z0=0",
            "z1=0.00781249976716935634613037109375",
        ],
        0,
        "CellTooSmall",
    ),
    (&["forge", "solids=5001"], 2, "OutOfRange"),
    // The first bad word is noted, whatever stands after it.
    (&["render", "w=0", "h", "h=3"], 2, "OutOfRange"),
    (&["render", "x0=1", "x1=-1"], 0, "EmptySpan"),
    (&["render", "y1=-1.0000000003"], 0, "EmptySpan"),
    (&["mesh", "n=256", "x0=0", "x1=0.001"], 0, "CellTooSmall"),
    // One raw unit less than twice 65536.
    (
        &["mesh", "n=2", "x0=0", "x1=0.00003051734529435634613037"],
        0,
        "CellTooSmall",
    ),
    (&["mesh", "n=256", "x0=1", "x1=0"], 0, "EmptySpan"),
];

// Words of the other verbs.
const OTHERS: [Case; 34] = [
    // Words of a height map.
    (&["height", "w"], 2, "NotASetting"),
    (&["height", "n=3"], 2, "UnknownSetting"),
    (&["height", "z=0"], 2, "UnknownSetting"),
    (&["height", "d=3", "d=4"], 3, "Twice"),
    (&["height", "d=3.0"], 2, "BadValue"),
    (&["height", "z0=1e"], 2, "BadValue"),
    (&["height", "w=1025"], 2, "OutOfRange"),
    (&["height", "h=1025"], 2, "OutOfRange"),
    (&["height", "d=1025"], 2, "OutOfRange"),
    (&["height", "w=0"], 2, "OutOfRange"),
    (&["height", "h=0"], 2, "OutOfRange"),
    (&["height", "d=0"], 2, "OutOfRange"),
    (&["height", "x0=1", "x1=-1"], 0, "EmptySpan"),
    (&["height", "y1=-2"], 0, "EmptySpan"),
    (&["height", "z0=0.5", "z1=0.25"], 0, "EmptySpan"),
    // Words of a shaded height map.
    (&["shade", "n=3"], 2, "UnknownSetting"),
    (&["shade", "z=0"], 2, "UnknownSetting"),
    (&["shade", "w=1025"], 2, "OutOfRange"),
    (&["shade", "d=1025"], 2, "OutOfRange"),
    (&["shade", "x0=2"], 0, "EmptySpan"),
    // Words of a contour.
    (&["contour", "n=0"], 2, "OutOfRange"),
    (&["contour", "n=257"], 2, "OutOfRange"),
    (&["contour", "n=2", "z0=1"], 3, "UnknownSetting"),
    (&["contour", "nx=3"], 2, "UnknownSetting"),
    (&["contour", "n=64", "n=64"], 3, "Twice"),
    (&["contour", "x0=1", "x1=0"], 0, "EmptySpan"),
    (
        &["contour", "n=256", "x0=0", "x1=0.003906249"],
        0,
        "CellTooSmall",
    ),
    // Words of a solid that is written as forms.
    (&["solid", "foo"], 2, "NotASetting"),
    (&["solid", "x0=1"], 2, "UnknownSetting"),
    // Words of a check.
    (&["check", "n=3"], 2, "UnknownSetting"),
    // Words of a model that is made.
    (&["forge", "seed=18446744073709551616"], 2, "OutOfRange"),
    (&["forge", "seed=0", "solids=0"], 3, "OutOfRange"),
    // Settings of verbs that take none.
    (&["replay", "w"], 2, "NotASetting"),
    (&["replay", "w=1"], 2, "UnknownSetting"),
];

// The words of each row are refused so.
fn expect_refusals(rt: &impl Abort, alloc: Global, rows: &[Case]) -> Result<(), AllocError> {
    for (words, number, reason) in rows {
        let ran = Trial::new(words, DISC).run_refused(alloc, "word", *number, reason)?;
        let is_refused = ran.ending == Ending::wanted(Status::Usage) && ran.rest == Rest::All;
        assert!(rt; is_refused, "{words:?}: {ran:?}");
    }
    Ok(())
}

#[test]
fn words_of_images_that_are_refused_leave_the_source(rt: HostRuntime) -> Result<(), Fail> {
    expect_refusals(&rt, rt.alloc(), &IMAGES)?;
    Ok(())
}

#[test]
fn words_of_meshes_that_are_refused_leave_the_source(rt: HostRuntime) -> Result<(), Fail> {
    expect_refusals(&rt, rt.alloc(), &MESHES)?;
    Ok(())
}

#[test]
fn other_words_that_are_refused_leave_the_source(rt: HostRuntime) -> Result<(), Fail> {
    expect_refusals(&rt, rt.alloc(), &OTHERS)?;
    Ok(())
}
