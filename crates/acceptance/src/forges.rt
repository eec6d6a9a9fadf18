// Models that are made from a seed. The numbers were worked out by a program of its own, which makes
// the models and walks the boxes of their images.
use clause_reader::write_model;
use model_forge::forge_model;
use modeller_cmd::Status;
use std::alloc::{AllocError, Global};
use std::process::Abort;
use std::test::Fail;
use trial_runs::{Calls, DISC, Ending, Ran, Rest, Trial};

// Words, and what is told: clauses, pixels inside, points, spans and plain.
type Case = (&'static [&'static str], u64, u64, u64, u64, u64);

// One disc, and a view in which there is nothing of it.
const OUT_OF_SIGHT: &[&str] = &[
    "forge", "solids=1", "x0=5", "x1=6", "y0=5", "y1=6", "w=8", "h=8",
];

const CASES: [Case; 4] = [
    (OUT_OF_SIGHT, 12, 0, 0, 12, 768),
    (
        &[
            "forge",
            "seed=18446744073709551615",
            "solids=1",
            "x0=5",
            "x1=6",
            "y0=5",
            "y1=6",
            "w=8",
            "h=8",
        ],
        12,
        0,
        0,
        12,
        768,
    ),
    // The most discs, and the greatest image.
    (
        &[
            "forge",
            "solids=5000",
            "x0=5",
            "x1=6",
            "y0=5",
            "y1=6",
            "w=4096",
            "h=4096",
        ],
        56_219,
        0,
        0,
        56_219,
        943_198_306_304,
    ),
    (
        &["forge", "seed=1", "solids=250", "w=64", "h=64"],
        2813,
        584,
        1_016_768,
        90_161,
        11_522_048,
    ),
];

// Makes a model over a source whose first call fails. What is made should be told by these lines.
fn forge(alloc: Global, words: &[&str], counts: [u64; 5]) -> Result<Ran, AllocError> {
    let [clauses, inside, points, spans, plain] = counts;
    let told = format!(in alloc;
        "clauses {clauses}\ninside {inside}\npoints {points}\nspans {spans}\nplain {plain}\n"
    )?;
    let mut trial = Trial::new(words, DISC);
    trial.reads.failing = 1;
    trial.run(alloc, told.as_bytes(), b"")
}

// Each row's model is made and told. The first call of the source, which fails, is still to come then.
fn expect_forged(rt: &impl Abort, alloc: Global, rows: &[Case]) -> Result<(), AllocError> {
    for (words, clauses, inside, points, spans, plain) in rows {
        let ran = forge(alloc, words, [*clauses, *inside, *points, *spans, *plain])?;
        let is_told = ran.ending == Ending::wanted(Status::Done) && ran.rest == Rest::Fails;
        let takes_that = ran.work.points == *points && ran.work.spans == *spans;
        assert!(rt; is_told && takes_that, "{words:?}: {ran:?}");
    }
    Ok(())
}

#[test]
fn a_model_is_made_and_told_and_nothing_is_read(rt: HostRuntime) -> Result<(), Fail> {
    expect_forged(&rt, rt.alloc(), &CASES)?;
    Ok(())
}

#[test]
fn what_can_not_be_told_is_counted(rt: HostRuntime) -> Result<(), Fail> {
    let mut trial = Trial::new(OUT_OF_SIGHT, DISC);
    trial.writes = Calls {
        chunk: 5,
        failing: 2,
    };
    let ran = trial.run(rt.alloc(), b"claus", b"modeller: write fault\n")?;
    assert_eq!(rt; ran.ending, Ending::wanted(Status::WriteFault));
    assert_eq!(rt; (ran.work.points, ran.work.spans), (0, 12));
    Ok(())
}

#[test]
fn the_text_of_a_model_that_is_made(rt: HostRuntime) -> Result<(), Fail> {
    let model = forge_model(rt.alloc(), 0, 1)?;
    let text = write_model(rt.alloc(), &model)?;
    let lines = "x var-x\ny var-y\na0 const 0.4823913574\nb0 sub x a0\nc0 square b0\n\
        d0 const -0.0700531005\ne0 sub y d0\nf0 square e0\ng0 add c0 f0\n\
        h0 const 0.0317840576\nk0 square h0\nm0 sub g0 k0\n";
    assert_eq!(rt; text.as_slice(), lines.as_bytes());
    Ok(())
}
