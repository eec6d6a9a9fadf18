// What holds whether or not memory is refused: each call that is refused leaves what it should, and what comes
// after it is as if nothing had been kept of it. A run may refuse one allocation. Where that is none of the
// calls under test, the same is done again, and then nothing is refused.
use crate::fixtures::{BARS, Change, cost, draw, edit, is_fresh, make, open, takes, undo, view};
use edit_session::Session;
use model_frames::Frame;
use solid_model::EditFault;
use std::alloc::Global;
use std::process::Abort;

// Whether a frame of one kind is drawn again with at most this work. Where it is refused, the cost before it is
// told, and the next one is a fresh one. Under both, a frame of the other kind, which is drawn, takes nothing.
fn is_drawn_again(
    alloc: Global,
    session: &mut Session,
    frame: &Frame,
    other: &Frame,
    most: (u64, u64),
) -> Option<bool> {
    let before = cost(session);
    match takes(session, frame, most) {
        Some(is_within) => Some(takes(session, other, (0, 0))? && is_within),
        None => {
            let is_told = cost(session) == before;
            let is_fresh = is_fresh(alloc, session, frame);
            let other = takes(session, other, (0, 0));
            Some(is_told && is_fresh == Some(true) && other == Some(true))
        }
    }
}

// A frame of one kind is drawn of the bars, one of them is moved, a frame of the other kind is drawn, and
// then one of the first kind again. None: memory was refused elsewhere.
fn draw_move_draw(
    alloc: Global,
    session: &mut Session,
    frame: &Frame,
    other: &Frame,
    most: (u64, u64),
) -> Option<bool> {
    draw(session, frame)?;
    make(alloc, session, Change::Set(b"q", b"const 0.625"))?;
    draw(session, other)?;
    is_drawn_again(alloc, session, frame, other, most)
}

fn draw_twice(alloc: Global, frame: &Frame, other: &Frame, most: (u64, u64)) -> Option<bool> {
    let mut session = open(alloc, BARS)?;
    draw_move_draw(alloc, &mut session, frame, other, most)
}

// An image of one row.
fn image() -> Option<Frame> {
    Some(Frame::Render(view(32, 1, 1)?))
}

fn mesh() -> Option<Frame> {
    Some(Frame::Mesh(view(8, 8, 4)?))
}

fn draw_images(alloc: Global) -> Option<bool> {
    draw_twice(alloc, &image()?, &mesh()?, (128, 50))
}

fn draw_meshes(alloc: Global) -> Option<bool> {
    draw_twice(alloc, &mesh()?, &image()?, (750, 410))
}

#[test]
fn an_image_after_a_refused_one_is_fresh(rt: HostRuntime) {
    let once = draw_images(rt.alloc());
    let found = if once.is_none() {
        draw_images(rt.alloc())
    } else {
        once
    };
    assert!(rt; found == Some(true));
}

#[test]
fn a_mesh_after_a_refused_one_is_fresh(rt: HostRuntime) {
    let once = draw_meshes(rt.alloc());
    let found = if once.is_none() {
        draw_meshes(rt.alloc())
    } else {
        once
    };
    assert!(rt; found == Some(true));
}

// Names that are too long to stand where short ones do.
const OPENED: &[u8] = b"x var-x\nthe_middle_of_the_bar const 0.5000000000\n\
    f sub x the_middle_of_the_bar\nthe_output_of_all_this min f f\n";

// Edits, with the texts after them.
const CHANGES: [(Change, &[u8]); 5] = [
    (
        Change::Set(b"the_middle_of_the_bar", b"const 0.625"),
        b"x var-x\nthe_middle_of_the_bar const 0.6250000000\nf sub x the_middle_of_the_bar\n\
            the_output_of_all_this min f f\n",
    ),
    (
        Change::Set(b"f", b"sub the_middle_of_the_bar x"),
        b"x var-x\nthe_middle_of_the_bar const 0.5000000000\nf sub the_middle_of_the_bar x\n\
            the_output_of_all_this min f f\n",
    ),
    (
        Change::Put(
            b"the_middle_of_the_bar",
            b"a_clause_that_is_put",
            b"square x",
        ),
        b"x var-x\na_clause_that_is_put square x\nthe_middle_of_the_bar const 0.5000000000\n\
            f sub x the_middle_of_the_bar\nthe_output_of_all_this min f f\n",
    ),
    (
        Change::Add(b"another_output_of_all_this", b"neg f"),
        b"x var-x\nthe_middle_of_the_bar const 0.5000000000\nf sub x the_middle_of_the_bar\n\
            the_output_of_all_this min f f\nanother_output_of_all_this neg f\n",
    ),
    (
        Change::Cut(b"the_output_of_all_this"),
        b"x var-x\nthe_middle_of_the_bar const 0.5000000000\nf sub x the_middle_of_the_bar\n",
    ),
];

// Whether the text of the model is this one. None: memory was refused.
fn has_text(session: &Session, text: &[u8]) -> Option<bool> {
    let now = session.text().ok()?;
    Some(now.as_slice() == text)
}

// The model has this text, and an image that is drawn takes nothing.
fn stands(session: &mut Session, text: &[u8], image: &Frame) -> bool {
    has_text(session, text) == Some(true) && takes(session, image, (0, 0)) == Some(true)
}

// Whether a refused edit was refused memory, which leaves all and has nothing to be taken back.
fn leaves_all(session: &mut Session, answer: Result<(), EditFault>, image: &Frame) -> bool {
    answer == Err(EditFault::NoMemory)
        && stands(session, OPENED, image)
        && undo(session) == Err(EditFault::NothingToUndo)
}

// Whether an edit is made, at a second try where the first one is refused memory. None: memory was refused
// elsewhere.
fn is_made(alloc: Global, session: &mut Session, change: Change, image: &Frame) -> Option<bool> {
    let answer = edit(alloc, session, change)?;
    if answer.is_ok() {
        return Some(true);
    }
    let leaves_all = leaves_all(session, answer, image);
    make(alloc, session, change)?;
    Some(leaves_all)
}

// Whether the edit is taken back, at a second try where the first one is refused memory, which leaves all. Nothing
// is left to be taken back then.
fn is_undone(session: &mut Session, text: &[u8], image: &Frame) -> bool {
    let answer = undo(session);
    if answer.is_err() {
        let leaves_all = answer == Err(EditFault::NoMemory) && stands(session, text, image);
        if !leaves_all || undo(session).is_err() {
            return false;
        }
    }
    undo(session) == Err(EditFault::NothingToUndo)
}

// Whether an edit is made between two images, and taken back. None: memory was refused elsewhere.
fn is_taken_back(
    alloc: Global,
    session: &mut Session,
    change: Change,
    text: &[u8],
) -> Option<bool> {
    let image = image()?;
    draw(session, &image)?;
    let is_made = is_made(alloc, session, change, &image)?;
    draw(session, &image)?;
    let is_changed = has_text(session, text)?;
    let is_undone = is_undone(session, text, &image);
    Some(has_text(session, OPENED)? && is_made && is_changed && is_undone)
}

fn there_and_back(alloc: Global, change: Change, text: &[u8]) -> Option<bool> {
    let mut session = open(alloc, OPENED)?;
    is_taken_back(alloc, &mut session, change, text)
}

fn expect_all(rt: &impl Abort, alloc: Global, rows: &[(Change, &[u8])]) {
    for (change, text) in rows {
        let once = there_and_back(alloc, *change, text);
        let found = if once.is_none() {
            there_and_back(alloc, *change, text)
        } else {
            once
        };
        assert!(rt; found == Some(true), "to {text:?}");
    }
}

#[test]
fn a_refused_edit_or_undo_leaves_the_session(rt: HostRuntime) {
    expect_all(&rt, rt.alloc(), &CHANGES);
}
