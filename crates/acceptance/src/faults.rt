// Calls of the source and the sinks that fail.
use modeller_cmd::Status;
use std::alloc::{AllocError, Global};
use std::process::Abort;
use std::test::Fail;
use trial_runs::{Calls, DISC, DISC_PICTURE, Ending, Held, Ran, THREE_BY_THREE, Trial};

#[test]
fn a_write_that_fails_leaves_what_was_written(rt: HostRuntime) -> Result<(), Fail> {
    let mut trial = Trial::new(THREE_BY_THREE, DISC);
    trial.writes = Calls {
        chunk: 5,
        failing: 2,
    };
    let ran = trial.run(rt.alloc(), b"P5\n3 ", b"modeller: write fault\n")?;
    assert_eq!(rt; ran.ending, Ending::wanted(Status::WriteFault));
    Ok(())
}

#[test]
fn short_reads_and_writes_change_nothing(rt: HostRuntime) -> Result<(), Fail> {
    let mut trial = Trial::new(THREE_BY_THREE, DISC);
    trial.reads.chunk = 1;
    trial.writes.chunk = 1;
    // Notes that would fail are not asked.
    trial.notes = Calls {
        chunk: 9,
        failing: 1,
    };
    let ran = trial.run(rt.alloc(), DISC_PICTURE, b"")?;
    assert_eq!(rt; ran.ending, Ending::wanted(Status::Done));
    Ok(())
}

// Draws the disc, whose text is read by at most `chunk` bytes a call. A read fails.
fn failing_to_read(chunk: u64, failing: u64) -> Trial<'static> {
    let mut trial = Trial::new(THREE_BY_THREE, DISC);
    trial.reads = Calls { chunk, failing };
    trial
}

// By how many bytes the 68 bytes of the text are read, and how many reads a run makes then. The last one tells
// that the input ends.
const READS: [(u64, u8); 2] = [(1, 69), (4, 18)];

// Each of so many reads fails, and nothing is evaluated then.
fn expect_faults(rt: &impl Abort, alloc: Global, chunk: u64, reads: u8) -> Result<(), AllocError> {
    for before in 0..reads {
        let trial = failing_to_read(chunk, u64::from(before) + 1);
        let ran = trial.run(alloc, b"", b"modeller: read fault\n")?;
        let fails = ran.ending == Ending::wanted(Status::ReadFault) && ran.work.points == 0;
        assert!(rt; fails, "{before} of {chunk}: {ran:?}");
    }
    Ok(())
}

fn expect_reads(rt: &impl Abort, alloc: Global, rows: &[(u64, u8)]) -> Result<(), AllocError> {
    for (chunk, reads) in rows {
        expect_faults(rt, alloc, *chunk, *reads)?;
        // One more is not made, and so does not fail.
        let trial = failing_to_read(*chunk, u64::from(*reads) + 1);
        let ran = trial.run(alloc, DISC_PICTURE, b"")?;
        let is_drawn = ran.ending == Ending::wanted(Status::Done) && ran.work.points != 0;
        assert!(rt; is_drawn, "{reads} of {chunk}: {ran:?}");
    }
    Ok(())
}

#[test]
fn each_read_may_fail(rt: HostRuntime) -> Result<(), Fail> {
    expect_reads(&rt, rt.alloc(), &READS)?;
    Ok(())
}

// Writes a picture by single bytes, and fails behind so many of them.
fn write_front(
    alloc: Global,
    mut trial: Trial,
    picture: &[u8],
    taken: u32,
) -> Result<Ran, AllocError> {
    trial.writes = Calls {
        chunk: 1,
        failing: u64::from(taken) + 1,
    };
    let front = &picture[..(taken as usize).min(picture.len())];
    trial.run(alloc, front, b"modeller: write fault\n")
}

#[test]
fn each_byte_may_be_the_first_that_is_not_written(rt: HostRuntime) -> Result<(), Fail> {
    let trial = Trial::new(THREE_BY_THREE, DISC);
    for taken in 0..20 {
        let ending = write_front(rt.alloc(), trial, DISC_PICTURE, taken)?.ending;
        assert!(rt;
            ending == Ending::wanted(Status::WriteFault),
            "{taken}: {ending:?}"
        );
    }
    Ok(())
}

// Words, how many bytes `#` the input begins with, the text behind them, the numbers of the read and of the
// write that fail, and the status. Nothing fails at call 0.
type Noted = (
    &'static [&'static str],
    usize,
    &'static [u8],
    u64,
    u64,
    Status,
);

// Each status that a run may be made to end with where memory is there.
const NOTED: [Noted; 7] = [
    (&["draw"], 0, DISC, 0, 0, Status::Usage),
    (THREE_BY_THREE, 0, b"", 0, 0, Status::BadModel),
    (THREE_BY_THREE, 0, b"a", 0, 0, Status::BadModel),
    (&["replay"], 0, DISC, 0, 0, Status::BadScript),
    (&["text"], 8_388_609, b"", 0, 0, Status::TooLong),
    (THREE_BY_THREE, 0, DISC, 1, 0, Status::ReadFault),
    (THREE_BY_THREE, 0, DISC, 0, 1, Status::WriteFault),
];

// A run whose note fails at this call, and has taken these bytes then.
fn note_front(alloc: Global, noted: &Noted, failing: u64, front: &[u8]) -> Result<Ran, AllocError> {
    let (words, comment, text, failing_read, failing_write, _) = noted;
    let mut input = vec![in alloc; b'#'; *comment]?;
    input.extend_from_slice(text)?;
    let mut trial = Trial::new(words, &input);
    trial.reads.failing = *failing_read;
    trial.writes.failing = *failing_write;
    trial.notes = Calls { chunk: 9, failing };
    trial.run(alloc, b"", front)
}

// The call of a note that fails, at once or behind nine bytes, and what is noted.
const NOTES: [(u64, &[u8]); 2] = [(1, b""), (2, b"modeller:")];

// Each run ends with its status where its note fails so.
fn expect_noted(
    rt: &impl Abort,
    alloc: Global,
    rows: &[Noted],
    failing: u64,
    front: &[u8],
) -> Result<(), AllocError> {
    for noted in rows {
        let ending = note_front(alloc, noted, failing, front)?.ending;
        let (words, _, _, _, _, status) = noted;
        assert!(rt; ending == Ending::wanted(*status), "{words:?}: {ending:?}");
    }
    Ok(())
}

fn expect_notes(rt: &impl Abort, alloc: Global, notes: &[(u64, &[u8])]) -> Result<(), AllocError> {
    for (failing, front) in notes {
        expect_noted(rt, alloc, &NOTED, *failing, front)?;
    }
    Ok(())
}

#[test]
fn a_note_that_fails_changes_no_status(rt: HostRuntime) -> Result<(), Fail> {
    expect_notes(&rt, rt.alloc(), &NOTES)?;
    Ok(())
}

// The left half of the columns is inside, where x is less than 0.
const HALF: &[u8] = b"x var-x\n";

const LARGE: &[&str] = &["render", "w=4096", "h=33"];

// The bytes of that picture: a header of fifteen bytes, and rows that are written together, sixteen of
// them, sixteen and one.
fn large_picture(alloc: Global) -> Result<Vec<u8>, AllocError> {
    let mut picture = Vec::from_slice(alloc, b"P5\n4096 33\n255\n")?;
    for _ in 0..33u32 {
        picture.extend_from_slice(&[255; 2048])?;
        picture.extend_from_slice(&[0; 2048])?;
    }
    Ok(picture)
}

// In the header, at the ends of rows that are written together, among them, and at the last byte.
const TAKEN: [u32; 10] = [
    0, 4, 14, 15, 65_550, 65_551, 100_000, 131_086, 131_087, 135_182,
];

// So many bytes of the large picture are written. All of the work is done: it is halved once along each
// axis, and no sample is evaluated.
fn expect_fronts(
    rt: &impl Abort,
    alloc: Global,
    picture: &[u8],
    counts: &[u32],
) -> Result<(), AllocError> {
    let trial = Trial::new(LARGE, HALF);
    for taken in counts {
        let ran = write_front(alloc, trial, picture, *taken)?;
        let takes_all = ran.work.points == 0 && ran.work.spans == 5;
        let fails = ran.ending == Ending::wanted(Status::WriteFault);
        assert!(rt; fails && takes_all, "{taken}: {ran:?}");
    }
    Ok(())
}

#[test]
fn a_write_that_fails_leaves_a_front_of_a_large_picture(rt: HostRuntime) -> Result<(), Fail> {
    let picture = large_picture(rt.alloc())?;
    expect_fronts(&rt, rt.alloc(), &picture, &TAKEN)?;
    Ok(())
}

// Two images and a mesh. The model has one clause, then two, then one.
const FRAMES: &[u8] =
    b"x var-x\n%%\nrender w=3 h=1\nset x var-y\nadd n neg x\nrender w=1 h=3\ncut n\n\
    mesh n=1\n";

// What it writes: 26 bytes for each image, and 168 for a mesh without faces.
const FRAMES_WRITTEN: &[u8] = b"@ render 14\nP5\n3 1\n255\n\xff\x00\x00\
    @ render 14\nP5\n1 3\n255\n\xff\x00\x00\
    @ mesh 157\nply\nformat ascii 1.0\nelement vertex 0\nproperty double x\n\
    property double y\nproperty double z\nelement face 0\n\
    property list uchar int vertex_indices\nend_header\n";

// Writes it by at most four bytes a call, and fails after so many calls.
fn write_frames(alloc: Global, calls: u8) -> Result<Ran, AllocError> {
    let mut trial = Trial::new(&["replay"], FRAMES);
    trial.writes = Calls {
        chunk: 4,
        failing: u64::from(calls) + 1,
    };
    trial.run(alloc, FRAMES_WRITTEN, b"modeller: write fault\n")
}

// Whether a run may have done this work where so many bytes are written. That of the frame whose bytes are not
// taken is done, and none behind it: three samples of one clause, three of two, and at most the eight corners of
// a cell.
fn is_work_behind(count: usize, points: u64, spans: u64) -> bool {
    match count {
        0..=25 => points == 3 && spans == 1,
        26..=51 => points == 9 && spans == 3,
        _ => 9 <= points && points <= 17 && 3 <= spans && spans <= 11,
    }
}

// Whether a run ends at a write that fails after so many calls, each of which takes one byte to four.
fn ends_behind(ran: &Ran, calls: u8) -> bool {
    let calls = usize::from(calls);
    match ran.ending.out {
        Held::Front(count) => {
            calls <= count
                && count <= 4 * calls
                && is_work_behind(count, ran.work.points, ran.work.spans)
        }
        _ => false,
    }
}

#[test]
fn a_script_ends_at_the_call_that_fails(rt: HostRuntime) -> Result<(), Fail> {
    // 220 bytes take at least 55 calls.
    for calls in 0..55u8 {
        let ran = write_frames(rt.alloc(), calls)?;
        let fails = ran.ending.status == Status::WriteFault && ran.ending.notes == Held::All;
        assert!(rt; fails && ends_behind(&ran, calls), "after {calls}: {ran:?}");
    }
    Ok(())
}
