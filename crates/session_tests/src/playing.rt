// Sessions that are played step by step, as tables tell.
use crate::fixtures::{
    Change, Drawn, Sides, cost, draw, draw_fresh, edit, open, undo, view, view_of,
};
use edit_session::Session;
use fixed_ops::Tally;
use model_frames::Frame;
use solid_model::EditFault;
use std::alloc::Global;
use std::process::Abort;

// What is done with a session, and what must come of it.
#[derive(Clone, Copy)]
pub(crate) enum Step {
    // An edit has this answer.
    Edit(Change, Result<(), EditFault>),
    // Taking the last edit back has this answer.
    Undo(Result<(), EditFault>),
    // An image of so many columns and rows takes these evaluations and traced steps.
    Image(u32, u32, u64, u64),
    // A mesh of so many cells along x, y and z has the text of a session that begins with the model then
    // standing, and takes at most these evaluations and traced steps.
    Mesh([u32; 3], u64, u64),
    // The last image took these.
    Cost(u64, u64),
    // An image, a height map or a mesh of three columns and rows and of two cells along each axis, or the
    // text, has these bytes.
    Bytes(Kind, &'static [u8]),
}

#[derive(Clone, Copy)]
pub(crate) enum Kind {
    Image,
    Height,
    Mesh,
    Text,
}

// Whether a step comes out as it must. None: memory was refused.
fn play_step(alloc: Global, session: &mut Session, step: Step, tally: &mut Tally) -> Option<bool> {
    match step {
        Step::Edit(change, answer) => Some(edit(alloc, session, change)? == answer),
        Step::Undo(answer) => Some(undo(session) == answer),
        Step::Image(w, h, points, spans) => {
            draw_image(session, w, h, tally)?;
            Some(cost(session) == (points, spans))
        }
        Step::Mesh(n, points, spans) => draw_mesh(alloc, session, n, points, spans),
        Step::Cost(points, spans) => Some(cost(session) == (points, spans)),
        Step::Bytes(kind, bytes) => draw_bytes(session, kind, bytes),
    }
}

// Draws an image, whose work this tally counts.
fn draw_image(session: &mut Session, w: u32, h: u32, tally: &mut Tally) -> Option<()> {
    let view = view(w, h, 1)?;
    session.render(&view, tally).ok()?;
    Some(())
}

fn draw_mesh(
    alloc: Global,
    session: &mut Session,
    n: [u32; 3],
    points: u64,
    spans: u64,
) -> Option<bool> {
    let frame = Frame::Mesh(view_of(Sides::of(8, 8, n))?);
    let drawn = draw(session, &frame)?;
    let fresh = draw_fresh(alloc, session, &frame)?;
    Some(is_within(&drawn, &fresh, points, spans))
}

// Whether a frame has the bytes of another, and took at most this.
fn is_within(drawn: &Drawn, fresh: &Drawn, points: u64, spans: u64) -> bool {
    drawn.bytes == fresh.bytes && drawn.points <= points && drawn.spans <= spans
}

fn draw_bytes(session: &mut Session, kind: Kind, bytes: &[u8]) -> Option<bool> {
    let drawn = draw(session, &frame_of(kind)?)?;
    Some(drawn.bytes.as_slice() == bytes)
}

fn frame_of(kind: Kind) -> Option<Frame> {
    let view = view(3, 3, 2)?;
    Some(match kind {
        Kind::Image => Frame::Render(view),
        Kind::Height => Frame::Height(view),
        Kind::Mesh => Frame::Mesh(view),
        Kind::Text => Frame::Text,
    })
}

fn play_steps(
    rt: &impl Abort,
    alloc: Global,
    session: &mut Session,
    steps: &[Step],
    tally: &mut Tally,
) -> Option<()> {
    for (at, step) in steps.iter().enumerate() {
        let holds = play_step(alloc, session, *step, tally)?;
        assert!(rt; holds, "at {at}");
    }
    Some(())
}

// Plays steps in a session that begins with a model. None: memory was refused.
fn play(
    rt: &impl Abort,
    alloc: Global,
    model: &[u8],
    steps: &[Step],
    tally: &mut Tally,
) -> Option<()> {
    let mut session = open(alloc, model)?;
    play_steps(rt, alloc, &mut session, steps, tally)
}

// Plays sessions, each a model with its steps.
pub(crate) fn play_all(
    rt: &impl Abort,
    alloc: Global,
    sessions: &[(&[u8], &[Step])],
    tally: &mut Tally,
) {
    for (model, steps) in sessions {
        assert!(rt;
            play(rt, alloc, model, steps, tally).is_some(),
            "memory was refused"
        );
    }
}
