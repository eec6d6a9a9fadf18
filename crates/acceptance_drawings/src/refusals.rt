// What is refused is neither drawn nor counted.
use modeller_cmd::Status;
use std::alloc::{AllocError, Global};
use std::process::Abort;
use std::test::Fail;
use trial_runs::{DISC, Ending, Trial};

// Words, an input, the status, and the note.
type Refused = (
    &'static [&'static str],
    &'static [u8],
    Status,
    &'static [u8],
);

const COUNTS: [Refused; 3] = [
    (
        &["count", "w=0"],
        DISC,
        Status::Usage,
        b"modeller: word 2: OutOfRange\n",
    ),
    (
        &["count", "d=3"],
        DISC,
        Status::Usage,
        b"modeller: word 2: UnknownSetting\n",
    ),
    (
        &["count"],
        b"a var-x\nb neg c",
        Status::BadModel,
        b"modeller: line 2: UnknownName\n",
    ),
];

const MAPS: [Refused; 2] = [
    (
        &["height", "d=0"],
        DISC,
        Status::Usage,
        b"modeller: word 2: OutOfRange\n",
    ),
    (
        &["height"],
        b"a var-x\nb neg c",
        Status::BadModel,
        b"modeller: line 2: UnknownName\n",
    ),
];

fn expect_refusals(rt: &impl Abort, alloc: Global, rows: &[Refused]) -> Result<(), AllocError> {
    for (words, text, status, note) in rows {
        let ran = Trial::new(words, text).run(alloc, b"", note)?;
        let takes_nothing = ran.work.points == 0 && ran.work.spans == 0;
        let is_refused = ran.ending == Ending::wanted(*status) && takes_nothing;
        assert!(rt; is_refused, "{words:?}: {ran:?}");
    }
    Ok(())
}

#[test]
fn what_is_refused_is_not_counted(rt: HostRuntime) -> Result<(), Fail> {
    expect_refusals(&rt, rt.alloc(), &COUNTS)?;
    Ok(())
}

#[test]
fn a_map_of_no_model_is_not_counted(rt: HostRuntime) -> Result<(), Fail> {
    expect_refusals(&rt, rt.alloc(), &MAPS)?;
    Ok(())
}
