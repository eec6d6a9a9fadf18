// Meshes of scripts whose edits change a part of the model: what they write, and what they take.
use modeller_cmd::Status;
use std::alloc::{AllocError, Global};
use std::process::Abort;
use std::test::Fail;
use trial_runs::{Ending, Ran, Trial};

// A script over the same model, with edits between two meshes, the model that it makes of the other
// one, and the most evaluations and traced steps that both meshes take together.
type Case = (&'static str, &'static str, &'static str, u64, u64);

// The numbers were worked out by hand.
const CASES: [Case; 5] = [
    // Two bars, of which the second one moves.
    (
        "x var-x\np const -0.5\nq const 0.5\na sub x p\nb abs a\nc sub x q\nd abs c\ne min b d\n\
        r const 0.25\nf sub e r\n",
        "set q const 0.625",
        "x var-x\np const -0.5\nq const 0.625\na sub x p\nb abs a\nc sub x q\nd abs c\ne min b d\n\
        r const 0.25\nf sub e r\n",
        1800,
        1012,
    ),
    // A clause that the output does not need.
    (
        "u const 5\nx var-x\n",
        "set u const 7",
        "u const 7\nx var-x\n",
        75,
        41,
    ),
    // Edits that are taken back before the second mesh, which takes nothing then.
    ("x var-x\n", "set x const 5\nundo", "x var-x\n", 75, 41),
    (
        "u const 5\nx var-x\n",
        "add f neg x\ncut f\nadd g neg u\nundo\nundo\nundo",
        "u const 5\nx var-x\n",
        75,
        41,
    ),
    // An edit that is refused.
    ("x var-x\n", "cut x", "x var-x\n", 75, 41),
];

// Adds the frame of the mesh of a model.
fn push_mesh(alloc: Global, model: &str, frames: &mut Vec<u8>) -> Result<(), AllocError> {
    let mesh = Trial::new(&["mesh", "n=4"], model.as_bytes()).written(alloc, 65536)?;
    let line = format!(in alloc; "@ mesh {}\n", mesh.bytes.len())?;
    frames.extend_from_slice(line.as_bytes())?;
    frames.extend_from_slice(&mesh.bytes)
}

// What both meshes write, with the line of the edit between them where that is refused.
fn frames(alloc: Global, case: &Case) -> Result<Vec<u8>, AllocError> {
    let (model, edit, edited, _, _) = case;
    let mut frames = Vec::new(alloc);
    push_mesh(alloc, model, &mut frames)?;
    if edit.starts_with("cut") {
        frames.extend_from_slice(b"@ refused 4 LastClause\n")?;
    }
    push_mesh(alloc, edited, &mut frames)?;
    Ok(frames)
}

// Replays a script of two meshes, with this between their commands.
fn replay_two(alloc: Global, model: &str, between: &str, frames: &[u8]) -> Result<Ran, AllocError> {
    let script = format!(in alloc; "{model}%%\nmesh {between}\nmesh n=4\n")?;
    Trial::new(&["replay"], script.as_bytes()).run(alloc, frames, b"")
}

// Replays a case.
fn replay_case(alloc: Global, case: &Case) -> Result<Ran, AllocError> {
    let frames = frames(alloc, case)?;
    let (model, edit, _, _, _) = case;
    let between = format!(in alloc; "n=4\n{edit}")?;
    replay_two(alloc, model, &between, &frames)
}

fn expect_meshes(rt: &impl Abort, alloc: Global, rows: &[Case]) -> Result<(), AllocError> {
    for row in rows {
        let ran = replay_case(alloc, row)?;
        let (_, edit, _, points, spans) = row;
        let is_within = ran.work.points <= *points && ran.work.spans <= *spans;
        let is_drawn = ran.ending == Ending::wanted(Status::Done) && is_within;
        assert!(rt; is_drawn, "{edit:?}: {ran:?}");
    }
    Ok(())
}

#[test]
fn a_mesh_after_an_edit_is_that_of_the_edited_model(rt: HostRuntime) -> Result<(), Fail> {
    expect_meshes(&rt, rt.alloc(), &CASES)?;
    Ok(())
}

// The frames of a mesh of this model, twice.
fn same_frames(alloc: Global, model: &str) -> Result<Vec<u8>, AllocError> {
    let mut frames = Vec::new(alloc);
    push_mesh(alloc, model, &mut frames)?;
    push_mesh(alloc, model, &mut frames)?;
    Ok(frames)
}

// Other words for the same cells.
const WORDS: [&str; 3] = ["nx=4 ny=4 nz=4", "nz=4 n=4", "ny=4 nz=4 n=9 nx=4"];

// Under all words two meshes have these frames, and take what one mesh takes at most.
fn expect_same(
    rt: &impl Abort,
    alloc: Global,
    frames: &[u8],
    rows: &[&str],
) -> Result<(), AllocError> {
    for words in rows {
        let ran = replay_two(alloc, "x var-x\n", words, frames)?;
        let is_within = ran.work.points <= 75 && ran.work.spans <= 41;
        let is_drawn = ran.ending == Ending::wanted(Status::Done) && is_within;
        assert!(rt; is_drawn, "{words:?}: {ran:?}");
    }
    Ok(())
}

#[test]
fn a_mesh_of_the_same_cells_takes_nothing_by_other_words(rt: HostRuntime) -> Result<(), Fail> {
    let frames = same_frames(rt.alloc(), "x var-x\n")?;
    expect_same(&rt, rt.alloc(), &frames, &WORDS)?;
    Ok(())
}
