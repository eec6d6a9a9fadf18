// Models that are written back.
use modeller_cmd::Status;
use std::alloc::{AllocError, Global};
use std::process::Abort;
use std::test::Fail;
use trial_runs::{Ending, Trial};

// Inputs, and the texts of their models.
const CASES: [(&str, &str); 7] = [
    // Constants are rounded to 2^-32, and written with ten decimals, cut towards 0.
    ("a const 1e-5", "a const 0.0000100000\n"),
    ("a const 99999999999", "a const 1073741823.9999999997\n"),
    ("a const 1e999", "a const 1073741823.9999999997\n"),
    ("a const -1e-999", "a const 0.0000000000\n"),
    ("a const -.5\n", "a const -0.5000000000\n"),
    // The word of an operation may be a name.
    (
        "floor var-x\n f  floor floor",
        "floor var-x\nf floor floor\n",
    ),
    // Comments and blanks go, names and order stay.
    (
        "# union\n\n x\tvar-x\r\n _y var-y\r\nu min x _y\nn neg u",
        "x var-x\n_y var-y\nu min x _y\nn neg u\n",
    ),
];

// Each input is written back so.
fn expect_texts(rt: &impl Abort, alloc: Global, rows: &[(&str, &str)]) -> Result<(), AllocError> {
    for (input, text) in rows {
        let ran = Trial::new(&["text"], input.as_bytes()).run(alloc, text.as_bytes(), b"")?;
        let is_written = ran.ending == Ending::wanted(Status::Done) && ran.work.points == 0;
        assert!(rt; is_written, "{input:?}: {ran:?}");
    }
    Ok(())
}

#[test]
fn a_model_is_written_back(rt: HostRuntime) -> Result<(), Fail> {
    expect_texts(&rt, rt.alloc(), &CASES)?;
    Ok(())
}

// The numeral 1, then 999 zeros, then `e-999`.
fn long_one(alloc: Global) -> Result<String, AllocError> {
    let mut text = String::from_str(alloc, "a const 1")?;
    for _ in 0..999 {
        text.push('0')?;
    }
    text.push_str("e-999")?;
    Ok(text)
}

#[test]
fn a_long_numeral_is_read_exactly(rt: HostRuntime) -> Result<(), Fail> {
    let text = long_one(rt.alloc())?;
    let trial = Trial::new(&["text"], text.as_bytes());
    let ran = trial.run(rt.alloc(), b"a const 1.0000000000\n", b"")?;
    assert_eq!(rt; ran.ending, Ending::wanted(Status::Done));
    Ok(())
}
