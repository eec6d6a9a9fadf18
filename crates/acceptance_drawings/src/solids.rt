// Solids that are written as forms. The clauses were worked out by hand, from the formula of each form.
use modeller_cmd::Status;
use std::alloc::{AllocError, Global};
use std::process::Abort;
use std::test::Fail;
use trial_runs::{Ending, Trial};

// Texts of solids, and the models that they become.
const CASES: [(&str, &[u8]); 3] = [
    (
        "ball 0.5",
        b"_0 var-x\n_1 var-y\n_2 var-z\n_3 square _0\n_4 square _1\n_5 add _3 _4\n_6 square _2\n\
        _7 add _5 _6\n_8 const 0.5000000000\n_9 square _8\n_10 sub _7 _9\n",
    ),
    // Lines and comments part tokens, and a numeral is written in any way that a model's may be.
    (
        "# a bar\r\nscale +2.\r\n# twice as large\r\n\r\n  cylinder\r\n.5e0\r\n1e400",
        b"_0 var-x\n_1 var-y\n_2 var-z\n_3 const 2.0000000000\n_4 div _0 _3\n_5 div _1 _3\n\
        _6 div _2 _3\n_7 square _4\n_8 square _5\n_9 add _7 _8\n_10 const 0.5000000000\n\
        _11 square _10\n_12 sub _9 _11\n_13 abs _6\n_14 const 1073741823.9999999997\n\
        _15 sub _13 _14\n_16 max _12 _15\n",
    ),
    (
        "difference union box 1 1 1 ball 1 move 0.5 0 -1 ball 0.0000000002",
        b"_0 var-x\n_1 var-y\n_2 var-z\n_3 abs _0\n_4 const 1.0000000000\n_5 sub _3 _4\n\
        _6 abs _1\n_7 const 1.0000000000\n_8 sub _6 _7\n_9 max _5 _8\n_10 abs _2\n\
        _11 const 1.0000000000\n_12 sub _10 _11\n_13 max _9 _12\n_14 square _0\n\
        _15 square _1\n_16 add _14 _15\n_17 square _2\n_18 add _16 _17\n\
        _19 const 1.0000000000\n_20 square _19\n_21 sub _18 _20\n_22 min _13 _21\n\
        _23 const 0.5000000000\n_24 sub _0 _23\n_25 const 0.0000000000\n_26 sub _1 _25\n\
        _27 const -1.0000000000\n_28 sub _2 _27\n_29 square _24\n_30 square _26\n\
        _31 add _29 _30\n_32 square _28\n_33 add _31 _32\n_34 const 0.0000000002\n\
        _35 square _34\n_36 sub _33 _35\n_37 neg _36\n_38 max _22 _37\n",
    ),
];

fn expect_models(rt: &impl Abort, alloc: Global, rows: &[(&str, &[u8])]) -> Result<(), AllocError> {
    for (text, model) in rows {
        let ran = Trial::new(&["solid"], text.as_bytes()).run(alloc, model, b"")?;
        let is_written = ran.ending == Ending::wanted(Status::Done) && ran.work.points == 0;
        assert!(rt; is_written, "{text:?}: {ran:?}");
    }
    Ok(())
}

#[test]
fn a_solid_becomes_its_clauses(rt: HostRuntime) -> Result<(), Fail> {
    expect_models(&rt, rt.alloc(), &CASES)?;
    Ok(())
}

// Texts that are no solid, the lines that are noted, and the reasons. Line 0 stands for the whole text.
const REFUSED: [(&str, u32, &str); 16] = [
    ("", 0, "Empty"),
    ("# ball 1\n\n", 0, "Empty"),
    ("cone 1", 1, "UnknownForm"),
    ("Ball 1", 1, "UnknownForm"),
    ("ball x", 1, "BadNumeral"),
    ("ball #5", 1, "BadNumeral"),
    ("move 1 2 cone ball 1", 1, "BadNumeral"),
    ("ball -1", 1, "NotPositive"),
    ("box 1 1 0", 1, "NotPositive"),
    ("ball 0.0000000001", 1, "NotPositive"),
    ("scale 0 ball 1", 1, "NotPositive"),
    ("union ball 1", 1, "Unended"),
    ("union\nball 1\nball\n# x\n\n", 3, "Unended"),
    ("ball 1 # note", 1, "Trailing"),
    ("ball 1\n\n\ncone", 4, "Trailing"),
    ("ball 1 ball 2", 1, "Trailing"),
];

fn expect_refusals(
    rt: &impl Abort,
    alloc: Global,
    rows: &[(&str, u32, &str)],
) -> Result<(), AllocError> {
    for (text, line, reason) in rows {
        let trial = Trial::new(&["solid"], text.as_bytes());
        let ending = trial.run_refused(alloc, "line", *line, reason)?.ending;
        assert!(rt;
            ending == Ending::wanted(Status::BadModel),
            "{text:?}: {ending:?}"
        );
    }
    Ok(())
}

#[test]
fn the_first_bad_token_is_noted(rt: HostRuntime) -> Result<(), Fail> {
    expect_refusals(&rt, rt.alloc(), &REFUSED)?;
    Ok(())
}
