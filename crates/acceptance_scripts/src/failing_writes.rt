// Scripts whose writes fail, or for which memory is refused: whole frames, and then a front of one.
use modeller_cmd::Status;
use std::alloc::{AllocError, Global};
use std::process::Abort;
use std::test::Fail;
use trial_runs::{Calls, Ending, Held, Trial};

// How many bytes a write takes, the number of the write that fails, and what is written before it. A short frame
// goes out at once with its line.
const FRONTS: [(u64, u64, &[u8]); 10] = [
    (64, 1, b""),
    (64, 2, b"@ text 8\nx var-x\n"),
    (64, 3, b"@ text 8\nx var-x\n@ refused 4 UnknownName\n"),
    (9, 1, b""),
    (9, 2, b"@ text 8\n"),
    (9, 3, b"@ text 8\nx var-x\n"),
    (9, 4, b"@ text 8\nx var-x\n@ refused"),
    (9, 5, b"@ text 8\nx var-x\n@ refused 4 Unknow"),
    (9, 6, b"@ text 8\nx var-x\n@ refused 4 UnknownName\n"),
    (
        9,
        7,
        b"@ text 8\nx var-x\n@ refused 4 UnknownName\n@ text 8\n",
    ),
];

// The same of lines that follow each other, which go out together.
const LINES: [(u64, u64, &[u8]); 4] = [
    (99, 1, b""),
    (30, 2, b"@ refused 3 UnknownName\n@ refu"),
    (
        99,
        2,
        b"@ refused 3 UnknownName\n@ refused 4 UnknownName\n@ refused 5 NothingToUndo\n",
    ),
    (
        99,
        3,
        b"@ refused 3 UnknownName\n@ refused 4 UnknownName\n@ refused 5 NothingToUndo\n@ text 8\nx var-x\n",
    ),
];

fn expect_fronts(
    rt: &impl Abort,
    alloc: Global,
    script: &'static [u8],
    rows: &[(u64, u64, &[u8])],
) -> Result<(), AllocError> {
    for (chunk, failing, front) in rows {
        let mut trial = Trial::new(&["replay"], script);
        trial.writes = Calls {
            chunk: *chunk,
            failing: *failing,
        };
        let ending = trial.run(alloc, front, b"modeller: write fault\n")?.ending;
        let fails = ending == Ending::wanted(Status::WriteFault);
        assert!(rt; fails, "{failing} by {chunk}: {ending:?}");
    }
    Ok(())
}

#[test]
fn a_write_that_fails_leaves_a_front_of_the_frames(rt: HostRuntime) -> Result<(), Fail> {
    let script = b"x var-x\n%%\ntext\ncut y\ntext\n";
    expect_fronts(&rt, rt.alloc(), script, &FRONTS)?;
    let script = b"x var-x\n%%\ncut y\nset a neg x\nundo\ntext\ncut y\n";
    expect_fronts(&rt, rt.alloc(), script, &LINES)?;
    Ok(())
}

// Two images, of 33 rows and of 17, of which those below the middle one are inside.
const TWO_IMAGES: &[u8] = b"y var-y\n%%\nrender w=3 h=33\nrender w=3 h=17\n";

// Their frames, of which the first has so many bytes.
const FIRST_FRAME: usize = 124;

fn two_frames(alloc: Global) -> Result<Vec<u8>, AllocError> {
    let mut frames = Vec::from_slice(alloc, b"@ render 111\nP5\n3 33\n255\n")?;
    frames.extend_from_slice(&[0; 51])?;
    frames.extend_from_slice(&[255; 48])?;
    frames.extend_from_slice(b"@ render 63\nP5\n3 17\n255\n")?;
    frames.extend_from_slice(&[0; 27])?;
    frames.extend_from_slice(&[255; 24])?;
    Ok(frames)
}

// The counts of bytes that are taken before a write fails: at the ends of the first frame, of the line, of the
// header and of rows that are written together, and among them.
const TAKEN: [u8; 10] = [0, 50, 124, 125, 136, 148, 149, 195, 196, 198];

// Writes the frames by single bytes, and fails behind so many of them.
fn write_front(alloc: Global, frames: &[u8], taken: u8) -> Result<Ending, AllocError> {
    let mut trial = Trial::new(&["replay"], TWO_IMAGES);
    trial.writes = Calls {
        chunk: 1,
        failing: u64::from(taken) + 1,
    };
    let front = &frames[..usize::from(taken).min(frames.len())];
    Ok(trial.run(alloc, front, b"modeller: write fault\n")?.ending)
}

// Of the frames so many bytes are written.
fn expect_taken(
    rt: &impl Abort,
    alloc: Global,
    frames: &[u8],
    counts: &[u8],
) -> Result<(), AllocError> {
    for taken in counts {
        let ending = write_front(alloc, frames, *taken)?;
        assert!(rt;
            ending == Ending::wanted(Status::WriteFault),
            "{taken}: {ending:?}"
        );
    }
    Ok(())
}

#[test]
fn an_image_is_written_whole_before_the_next_one(rt: HostRuntime) -> Result<(), Fail> {
    let frames = two_frames(rt.alloc())?;
    expect_taken(&rt, rt.alloc(), &frames, &TAKEN)?;
    Ok(())
}

#[test]
fn frames_are_written_whole_or_not_at_all(rt: HostRuntime) -> Result<(), Fail> {
    let frames = two_frames(rt.alloc())?;
    let ran = Trial::new(&["replay"], TWO_IMAGES).run(rt.alloc(), &frames, b"")?;
    // What is held is both frames, or where memory was refused the first one, or nothing.
    match ran.ending.out {
        Held::All => {}
        Held::Front(count) => {
            assert_eq!(rt; ran.ending.status, Status::NoMemory);
            assert!(rt; count == 0 || count == FIRST_FRAME);
        }
        Held::Other => assert!(rt; false, "something else"),
    }
    Ok(())
}
