// The longest input, the most clauses, and the largest image.
use modeller_cmd::Status;
use std::alloc::{AllocError, Global};
use std::process::Abort;
use std::test::Fail;
use trial_runs::{Ending, Trial};

// The length of an input that is one comment line, the number of the read that fails, the status and the
// note.
type Length = (usize, u64, Status, &'static [u8]);

// Reads take 8192 bytes. No read is made behind the one that tells that an input is too long.
const LENGTHS: [Length; 4] = [
    (
        8_388_608,
        1026,
        Status::BadModel,
        b"modeller: line 0: Empty\n",
    ),
    (
        8_388_608,
        1025,
        Status::ReadFault,
        b"modeller: read fault\n",
    ),
    (
        8_388_609,
        1026,
        Status::TooLong,
        b"modeller: input too long\n",
    ),
    (
        8_388_609,
        1025,
        Status::ReadFault,
        b"modeller: read fault\n",
    ),
];

// Runs on one comment line of so many bytes, at which a read fails.
fn read_comment(
    alloc: Global,
    length: usize,
    failing: u64,
    note: &[u8],
) -> Result<Ending, AllocError> {
    let text = vec![in alloc; b'#'; length]?;
    let mut trial = Trial::new(&["render"], &text);
    trial.reads.failing = failing;
    Ok(trial.run(alloc, b"", note)?.ending)
}

fn expect_lengths(rt: &impl Abort, alloc: Global, rows: &[Length]) -> Result<(), AllocError> {
    for (length, failing, status, note) in rows {
        let ending = read_comment(alloc, *length, *failing, note)?;
        assert!(rt;
            ending == Ending::wanted(*status),
            "{failing} of {length}: {ending:?}"
        );
    }
    Ok(())
}

#[test]
fn an_input_has_at_most_8_mib(rt: HostRuntime) -> Result<(), Fail> {
    expect_lengths(&rt, rt.alloc(), &LENGTHS)?;
    Ok(())
}

// A model of this many clauses, all of them x.
fn copies_of_x(alloc: Global, count: u32) -> Result<String, AllocError> {
    let mut text = String::new(alloc);
    for number in 0..count {
        writeln!(text, "{number} var-x")?;
    }
    Ok(text)
}

// Draws one sample of such a model.
fn draw_copies(alloc: Global, count: u32, out: &[u8], note: &[u8]) -> Result<Ending, AllocError> {
    let text = copies_of_x(alloc, count)?;
    let trial = Trial::new(&["render", "w=1", "h=1"], text.as_bytes());
    Ok(trial.run(alloc, out, note)?.ending)
}

// How many clauses there are, the status, and what is written and noted.
type Count = (u32, Status, &'static [u8], &'static [u8]);

const COUNTS: [Count; 2] = [
    (65_535, Status::Done, b"P5\n1 1\n255\n\xff", b""),
    (
        65_536,
        Status::BadModel,
        b"",
        b"modeller: line 65536: TooMany\n",
    ),
];

fn expect_counts(rt: &impl Abort, alloc: Global, rows: &[Count]) -> Result<(), AllocError> {
    for (count, status, out, note) in rows {
        let ending = draw_copies(alloc, *count, out, note)?;
        assert!(rt; ending == Ending::wanted(*status), "{count}: {ending:?}");
    }
    Ok(())
}

#[test]
fn a_model_has_at_most_65_535_clauses(rt: HostRuntime) -> Result<(), Fail> {
    expect_counts(&rt, rt.alloc(), &COUNTS)?;
    Ok(())
}

#[test]
fn an_image_has_at_most_4096_samples_a_side(rt: HostRuntime) -> Result<(), Fail> {
    // 4096 * 4096 bytes after the 17 bytes `P5`, `4096 4096` and `255` with their line feeds.
    let length = 16_777_233;
    let image = Trial::new(&["render", "w=4096", "h=4096"], b"x var-x").written(
        rt.alloc(),
        length,
    )?;
    assert_eq!(rt; image.status, Status::Done);
    assert_eq!(rt; image.bytes.len(), length);
    // Each quarter lies on one side of the line, and is decided.
    assert_eq!(rt; image.work.points, 0);
    assert_eq!(rt; image.work.spans, 5);
    Ok(())
}

// A chain of 65,535 clauses: the first one with what comes behind it, and the others, each of which is the
// negation of the one before and stands behind a word.
fn chain(alloc: Global, first: &str, word: &str) -> Result<String, AllocError> {
    let mut text = String::from_str(alloc, first)?;
    for last in 0..65_534u32 {
        writeln!(text, "{word}n{} neg n{last}", last + 1)?;
    }
    Ok(text)
}

// As many clauses, each of which but the first is its negation.
fn fan(alloc: Global) -> Result<String, AllocError> {
    let mut text = String::from_str(alloc, "n0 var-x\n")?;
    for number in 1..65_535u32 {
        writeln!(text, "n{number} neg n0")?;
    }
    Ok(text)
}

// What `render w=8 h=1` writes where the left half is inside, where the right half is, and where nothing is.
const LEFT: &[u8] = b"@ render 19\nP5\n8 1\n255\n\xff\xff\xff\xff\x00\x00\x00\x00";

const RIGHT: &[u8] = b"@ render 19\nP5\n8 1\n255\n\x00\x00\x00\x00\xff\xff\xff\xff";

const NONE: &[u8] = b"@ render 19\nP5\n8 1\n255\n\x00\x00\x00\x00\x00\x00\x00\x00";

// Counts the work of a row of eight samples, which should be told so.
fn count_row(alloc: Global, text: &str, counts: &str) -> Result<Ending, AllocError> {
    let trial = Trial::new(&["count", "w=8", "h=1"], text.as_bytes());
    Ok(trial.run(alloc, counts.as_bytes(), b"")?.ending)
}

#[test]
fn each_clause_of_a_chain_is_counted(rt: HostRuntime) -> Result<(), Fail> {
    // The eight samples are one box, which is not decided: 65,535 steps are traced over it and evaluated
    // at each sample.
    let text = chain(rt.alloc(), "n0 var-x\n", "")?;
    let counts = "points 524280\nspans 65535\nplain 524280\n";
    let ending = count_row(rt.alloc(), &text, counts)?;
    assert_eq!(rt; ending, Ending::wanted(Status::Done));
    Ok(())
}

#[test]
fn two_clauses_of_a_fan_are_counted(rt: HostRuntime) -> Result<(), Fail> {
    // Two steps are, where the others are not live.
    let text = fan(rt.alloc())?;
    let ending = count_row(rt.alloc(), &text, "points 16\nspans 2\nplain 524280\n")?;
    assert_eq!(rt; ending, Ending::wanted(Status::Done));
    Ok(())
}

// An edit, and the image and the cost behind it.
type Edit = (&'static str, &'static [u8], &'static str);

// Edits of the first clause, of the middle one and of the last one. Two negations in a row change nothing.
const EDITS: [Edit; 4] = [
    // 65,534 negations of x.
    ("", LEFT, "@ cost 13\n524280 65535\n"),
    // The box is decided, once all steps are traced.
    ("set n0 var-z\n", NONE, "@ cost 8\n0 65535\n"),
    // The last 32,767 clauses negate x, and are live with it.
    ("set n32767 var-x\n", RIGHT, "@ cost 13\n262144 32768\n"),
    // 32,766 negations of x, and their double.
    (
        "set n65534 add n65533 n65533\n",
        LEFT,
        "@ cost 13\n262144 32768\n",
    ),
];

// A chain, and a script of these edits, each with an image and its cost behind it.
fn edited_chain(alloc: Global, edits: &[Edit]) -> Result<String, AllocError> {
    let mut script = chain(alloc, "n0 var-x\n", "")?;
    script.push_str("%%\n")?;
    for (edit, _, _) in edits {
        writeln!(script, "{edit}render w=8 h=1\ncost")?;
    }
    Ok(script)
}

// What it writes.
fn edited_images(alloc: Global, edits: &[Edit]) -> Result<Vec<u8>, AllocError> {
    let mut written = Vec::new(alloc);
    for (_, image, cost) in edits {
        written.extend_from_slice(image)?;
        written.extend_from_slice(cost.as_bytes())?;
    }
    Ok(written)
}

#[test]
fn an_edit_anywhere_in_a_chain_is_seen(rt: HostRuntime) -> Result<(), Fail> {
    let script = edited_chain(rt.alloc(), &EDITS)?;
    let written = edited_images(rt.alloc(), &EDITS)?;
    let ran = Trial::new(&["replay"], script.as_bytes()).run(rt.alloc(), &written, b"")?;
    assert_eq!(rt; ran.ending, Ending::wanted(Status::Done));
    Ok(())
}

// A script that makes a chain out of its first clause, draws an image, and tells its cost.
fn growing_chain(alloc: Global) -> Result<String, AllocError> {
    let mut script = chain(alloc, "n0 var-x\n%%\n", "add ")?;
    script.push_str("render w=8 h=1\ncost\n")?;
    Ok(script)
}

// What it writes: the image where the left half is inside, and the cost of all clauses.
const GROWN: &[u8] = b"@ render 19\nP5\n8 1\n255\n\xff\xff\xff\xff\x00\x00\x00\x00\
    @ cost 13\n524280 65535\n";

#[test]
fn a_chain_is_put_together_by_edits(rt: HostRuntime) -> Result<(), Fail> {
    let script = growing_chain(rt.alloc())?;
    let ran = Trial::new(&["replay"], script.as_bytes()).run(rt.alloc(), GROWN, b"")?;
    assert_eq!(rt; ran.ending, Ending::wanted(Status::Done));
    Ok(())
}
