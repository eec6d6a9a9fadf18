// Runs over a source and sinks that never fail.
use crate::refusals;
use modeller_cmd::Status;
use std::alloc::{AllocError, Global};
use std::process::Abort;
use std::test::Fail;
use trial_runs::{DISC, DISC_PICTURE, Ending, THREE_BY_THREE, Trial};

#[test]
fn a_disc_is_drawn_surely(rt: HostRuntime) -> Result<(), Fail> {
    let ending = Trial::new(THREE_BY_THREE, DISC).run_surely(rt.alloc(), DISC_PICTURE, b"")?;
    assert_eq!(rt; ending, Ending::wanted(Status::Done));
    Ok(())
}

// Writes a text back that should be refused so.
fn refuse_surely(alloc: Global, text: &str, line: u32, reason: &str) -> Result<Ending, AllocError> {
    let note = format!(in alloc; "modeller: line {line}: {reason}\n")?;
    Trial::new(&["text"], text.as_bytes()).run_surely(alloc, b"", note.as_bytes())
}

fn expect_refusals(
    rt: &impl Abort,
    alloc: Global,
    rows: &[(&str, u32, &str)],
) -> Result<(), AllocError> {
    for (text, line, reason) in rows {
        let ending = refuse_surely(alloc, text, *line, reason)?;
        assert!(rt;
            ending == Ending::wanted(Status::BadModel),
            "{text:?}: {ending:?}"
        );
    }
    Ok(())
}

#[test]
fn texts_are_refused_surely(rt: HostRuntime) -> Result<(), Fail> {
    expect_refusals(&rt, rt.alloc(), &refusals::CASES)?;
    Ok(())
}
