// Scripts that are refused: the first bad line, and the lowest reason in it.
use modeller_cmd::Status;
use std::alloc::{AllocError, Global};
use std::process::Abort;
use std::test::Fail;
use trial_runs::{Ending, Held, Ran, Trial};

// An input, and the status and the note that it ends with.
type Case = (&'static str, Status, &'static str);

const CASES: [Case; 29] = [
    (
        "x var-x\n",
        Status::BadScript,
        "modeller: script line 0: NoMark\n",
    ),
    (
        "x var-x\n# %%\n",
        Status::BadScript,
        "modeller: script line 0: NoMark\n",
    ),
    (
        "x var-x\n%%\nrender w=0\n",
        Status::BadScript,
        "modeller: script line 3: BadSetting\n",
    ),
    (
        "x var-x\n%%\nheight w=1025\n",
        Status::BadScript,
        "modeller: script line 3: BadSetting\n",
    ),
    (
        "x var-x\n%%\nmesh w=3\n",
        Status::BadScript,
        "modeller: script line 3: BadSetting\n",
    ),
    (
        "x var-x\n%%\nmesh nx=513\n",
        Status::BadScript,
        "modeller: script line 3: BadSetting\n",
    ),
    (
        "x var-x\n%%\nmesh nx=512 ny=512 nz=65\n",
        Status::BadScript,
        "modeller: script line 3: BadSetting\n",
    ),
    (
        "x var-x\n%%\npaint\n",
        Status::BadScript,
        "modeller: script line 3: UnknownCommand\n",
    ),
    (
        "x var-x\n%%\nCost\n",
        Status::BadScript,
        "modeller: script line 3: UnknownCommand\n",
    ),
    (
        "x var-x\n%%\ncost#\n",
        Status::BadScript,
        "modeller: script line 3: UnknownCommand\n",
    ),
    (
        "x var-x\n%%\n%%\n",
        Status::BadScript,
        "modeller: script line 3: UnknownCommand\n",
    ),
    (
        "x var-x\n%%\ncut\n",
        Status::BadScript,
        "modeller: script line 3: TooShort\n",
    ),
    (
        "x var-x\n%%\nset x\n",
        Status::BadScript,
        "modeller: script line 3: TooShort\n",
    ),
    (
        "x var-x\n%%\nadd #y var-x\n",
        Status::BadScript,
        "modeller: script line 3: BadName\n",
    ),
    (
        "x var-x\n%%\nset x foo\n",
        Status::BadScript,
        "modeller: script line 3: UnknownOperation\n",
    ),
    (
        "x var-x\n%%\nadd f Floor x\n",
        Status::BadScript,
        "modeller: script line 3: UnknownOperation\n",
    ),
    (
        "x var-x\n%%\nadd f floor\n",
        Status::BadScript,
        "modeller: script line 3: WrongArity\n",
    ),
    (
        "x var-x\n%%\nadd f floor x x\n",
        Status::BadScript,
        "modeller: script line 3: WrongArity\n",
    ),
    (
        "x var-x\n%%\nset x neg\n",
        Status::BadScript,
        "modeller: script line 3: WrongArity\n",
    ),
    (
        "x var-x\n%%\ntext x\n",
        Status::BadScript,
        "modeller: script line 3: WrongArity\n",
    ),
    (
        "x var-x\n%%\ncost #\n",
        Status::BadScript,
        "modeller: script line 3: WrongArity\n",
    ),
    (
        "x var-x\n%%\nundo x\n",
        Status::BadScript,
        "modeller: script line 3: WrongArity\n",
    ),
    (
        "x var-x\n%%\nadd y var-y\nundo #\n",
        Status::BadScript,
        "modeller: script line 4: WrongArity\n",
    ),
    (
        "x var-x\n%%\nUndo\n",
        Status::BadScript,
        "modeller: script line 3: UnknownCommand\n",
    ),
    (
        "x var-x\n%%\nset x const 0x1\n",
        Status::BadScript,
        "modeller: script line 3: BadNumeral\n",
    ),
    // All of a script is read before anything of it is drawn, and the first bad line is told.
    (
        "x var-x\n%%\n\n# c\ntext\ncut y\npaint\ncut\n",
        Status::BadScript,
        "modeller: script line 7: UnknownCommand\n",
    ),
    // The model is read first, up to the mark, or all of the input where there is none.
    (
        "y neg x\n%%\npaint\n",
        Status::BadModel,
        "modeller: line 1: UnknownName\n",
    ),
    (
        "x var-x\npaint\n",
        Status::BadModel,
        "modeller: line 2: NoOperation\n",
    ),
    ("%%\ntext\n", Status::BadModel, "modeller: line 0: Empty\n"),
];

fn expect_refusals(rt: &impl Abort, alloc: Global, rows: &[Case]) -> Result<(), AllocError> {
    for (input, status, note) in rows {
        let trial = Trial::new(&["replay"], input.as_bytes());
        let ran = trial.run(alloc, b"", note.as_bytes())?;
        let is_refused = ran.ending == Ending::wanted(*status) && ran.work.points == 0;
        assert!(rt; is_refused, "{input:?}: {ran:?}");
    }
    Ok(())
}

#[test]
fn a_script_that_is_refused_writes_nothing(rt: HostRuntime) -> Result<(), Fail> {
    expect_refusals(&rt, rt.alloc(), &CASES)?;
    Ok(())
}

// A script whose mark begins behind eight bytes.
const SCRIPT: &[u8] = b"x var-x\n%%\nadd f neg x\nset f const 1.5e1\ncut f\nput x g var-y\n\
    render w=1 h=1\ntext\ncost\n";

// The last count of bytes behind which the script is cut so, the status, and the note.
type Cut = (u8, Status, &'static str);

const CUTS: [Cut; 32] = [
    (8, Status::BadScript, "modeller: script line 0: NoMark\n"),
    // What is left of the mark is a clause without an operation.
    (9, Status::BadModel, "modeller: line 2: NoOperation\n"),
    // The mark, with and without its line feed.
    (11, Status::Done, ""),
    (
        13,
        Status::BadScript,
        "modeller: script line 3: UnknownCommand\n",
    ),
    // `add`, `add f`, `add f n`, `add f neg` and `add f neg x`.
    (17, Status::BadScript, "modeller: script line 3: TooShort\n"),
    (
        19,
        Status::BadScript,
        "modeller: script line 3: UnknownOperation\n",
    ),
    (
        21,
        Status::BadScript,
        "modeller: script line 3: WrongArity\n",
    ),
    (23, Status::Done, ""),
    (
        25,
        Status::BadScript,
        "modeller: script line 4: UnknownCommand\n",
    ),
    (29, Status::BadScript, "modeller: script line 4: TooShort\n"),
    (
        33,
        Status::BadScript,
        "modeller: script line 4: UnknownOperation\n",
    ),
    (
        35,
        Status::BadScript,
        "modeller: script line 4: WrongArity\n",
    ),
    // `1`, `1.`, `1.5`, `1.5e` and `1.5e1`.
    (38, Status::Done, ""),
    (
        39,
        Status::BadScript,
        "modeller: script line 4: BadNumeral\n",
    ),
    (41, Status::Done, ""),
    (
        43,
        Status::BadScript,
        "modeller: script line 5: UnknownCommand\n",
    ),
    (45, Status::BadScript, "modeller: script line 5: TooShort\n"),
    (47, Status::Done, ""),
    (
        49,
        Status::BadScript,
        "modeller: script line 6: UnknownCommand\n",
    ),
    // `put x g` has three words, and an operation is wanted behind them.
    (55, Status::BadScript, "modeller: script line 6: TooShort\n"),
    (
        59,
        Status::BadScript,
        "modeller: script line 6: UnknownOperation\n",
    ),
    (61, Status::Done, ""),
    (
        66,
        Status::BadScript,
        "modeller: script line 7: UnknownCommand\n",
    ),
    // `render`, `render w`, `render w=`, `render w=1`, and so on with h.
    (68, Status::Done, ""),
    (
        70,
        Status::BadScript,
        "modeller: script line 7: BadSetting\n",
    ),
    (72, Status::Done, ""),
    (
        74,
        Status::BadScript,
        "modeller: script line 7: BadSetting\n",
    ),
    (76, Status::Done, ""),
    (
        79,
        Status::BadScript,
        "modeller: script line 8: UnknownCommand\n",
    ),
    (81, Status::Done, ""),
    (
        84,
        Status::BadScript,
        "modeller: script line 9: UnknownCommand\n",
    ),
    (86, Status::Done, ""),
];

// Replays so many bytes of the script.
fn replay_front(alloc: Global, length: usize, note: &str) -> Result<Ran, AllocError> {
    let front = &SCRIPT[..length.min(SCRIPT.len())];
    Trial::new(&["replay"], front).run(alloc, b"", note.as_bytes())
}

// Fronts of the script end as the row says, from so many bytes on. Under a note nothing is written.
fn expect_cut(rt: &impl Abort, alloc: Global, first: u8, row: &Cut) -> Result<(), AllocError> {
    let (last, status, note) = row;
    for length in first..=*last {
        let ending = replay_front(alloc, usize::from(length), note)?.ending;
        let is_noted = ending.status == *status && ending.notes == Held::All;
        let is_silent = note.is_empty() || ending.out == Held::All;
        assert!(rt; is_noted && is_silent, "{length}: {ending:?}");
    }
    Ok(())
}

fn expect_cuts(rt: &impl Abort, alloc: Global, rows: &[Cut]) -> Result<(), AllocError> {
    let mut first = 8;
    for row in rows {
        expect_cut(rt, alloc, first, row)?;
        first = row.0.saturating_add(1);
    }
    Ok(())
}

#[test]
fn a_script_that_is_cut_is_another_script(rt: HostRuntime) -> Result<(), Fail> {
    expect_cuts(&rt, rt.alloc(), &CUTS)?;
    Ok(())
}
