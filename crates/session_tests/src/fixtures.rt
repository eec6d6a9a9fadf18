// What the tests share: views, models, edits, and frames with the work that they take.
ghost use Rattle.std.specs.Prelude.{IsTrue};
ghost use Rattle.model_frames.specs.Frames.{CanDraw};
ghost use Rattle.view_places.specs.Window.{IsCount};

use clause_reader::{read_form, read_model};
use edit_session::Session;
use fixed_ops::Tally;
use model_frames::Frame;
use solid_model::{Edit, EditFault, Form, Name};
use std::alloc::Global;
use view_places::View;

pub(crate) const ONE: i64 = 1 << 32;

// The lesser of the distances of x from -0.5 and from 0.5, less 0.25.
pub(crate) const BARS: &[u8] =
    b"x var-x\np const -0.5\nq const 0.5\na sub x p\nb abs a\nc sub x q\n\
    d abs c\ne min b d\nr const 0.25\nf sub e r\n";

// A ball.
pub(crate) const BALL: &[u8] = b"x var-x\ny var-y\nz var-z\na square x\nb square y\nc square z\n\
    d add a b\ne add d c\nr const 0.25\nf sub e r\n";

// From -1 to 1 along y, from x0 to 1 along x, from -1 to z1 along z, and so many columns, rows and cells along
// x, y and z.
#[derive(Clone, Copy)]
pub(crate) struct Sides {
    pub(crate) x0: i64,
    pub(crate) z1: i64,
    pub(crate) w: u32,
    pub(crate) h: u32,
    pub(crate) n: [u32; 3],
}

impl Sides {
    // From -1 to 1 along each axis.
    pub(crate) fn of(w: u32, h: u32, n: [u32; 3]) -> Sides {
        Sides {
            x0: -ONE,
            z1: ONE,
            w,
            h,
            n,
        }
    }
}

fn is_count(count: u32, most: u32) -> bool
    ensures { IsTrue result → IsCount most count }
{
    1 <= count && count <= most
}

// A view of these sides. None: they are none of a test.
pub(crate) fn view_of(sides: Sides) -> Option<View> {
    let [nx, ny, nz] = sides.n;
    if !is_count(nx, 512) || !is_count(ny, 512) || !is_count(nz, 512) {
        return None;
    }
    if !is_count(sides.w, 1000) || !is_count(sides.h, 1000) {
        return None;
    }
    if sides.x0 < -ONE || sides.x0 > 0 || sides.z1 < 0 || sides.z1 > ONE {
        return None;
    }
    Some(View {
        x0: sides.x0,
        x1: ONE,
        y0: -ONE,
        y1: ONE,
        z0: -ONE,
        z1: sides.z1,
        z: 0,
        w: sides.w,
        h: sides.h,
        d: 3,
        nx,
        ny,
        nz,
    })
}

// The same from -1 to 1 along each axis, with as many cells along each.
pub(crate) fn view(w: u32, h: u32, n: u32) -> Option<View> {
    view_of(Sides::of(w, h, [n; 3]))
}

// An edit, by its names and the form that it gives.
#[derive(Clone, Copy)]
pub(crate) enum Change {
    Set(&'static [u8], &'static [u8]),
    Add(&'static [u8], &'static [u8]),
    Put(&'static [u8], &'static [u8], &'static [u8]),
    Cut(&'static [u8]),
}

fn name_of(alloc: Global, name: &[u8]) -> Option<Name> {
    Name::new(alloc, name).ok()
}

fn form_of(alloc: Global, form: &[u8]) -> Option<Form> {
    read_form(alloc, form).ok()
}

// A name and a form. None: memory was refused.
fn parts(alloc: Global, name: &[u8], form: &[u8]) -> Option<(Name, Form)> {
    let form = form_of(alloc, form)?;
    Some((name_of(alloc, name)?, form))
}

// The edit that a change is. None: memory was refused.
fn edit_of(alloc: Global, change: Change) -> Option<Edit> {
    match change {
        Change::Set(name, form) => {
            let (name, form) = parts(alloc, name, form)?;
            Some(Edit::Set(name, form))
        }
        Change::Add(name, form) => {
            let (name, form) = parts(alloc, name, form)?;
            Some(Edit::Add(name, form))
        }
        Change::Put(next, name, form) => {
            let (name, form) = parts(alloc, name, form)?;
            Some(Edit::Put(name_of(alloc, next)?, name, form))
        }
        Change::Cut(name) => Some(Edit::Cut(name_of(alloc, name)?)),
    }
}

// A session on the model of a text. None: memory was refused, or the text is none of a test.
pub(crate) fn open(alloc: Global, text: &[u8]) -> Option<Session> {
    if text.len() > 1000 {
        return None;
    }
    let model = read_model(alloc, text).ok()?;
    Some(Session::start(alloc, model))
}

// An edit that the session accepts. None: memory was refused.
pub(crate) fn make(alloc: Global, session: &mut Session, change: Change) -> Option<()> {
    session.edit(edit_of(alloc, change)?).ok()
}

// The calls of a session, each in a function that promises nothing: what a call says of the session is else part of
// each later step of its caller's proof.

// What an edit answers. None: memory for the edit was refused.
pub(crate) fn edit(
    alloc: Global,
    session: &mut Session,
    change: Change,
) -> Option<Result<(), EditFault>> {
    let edit = edit_of(alloc, change)?;
    Some(session.edit(edit))
}

// What taking the last edit back answers.
pub(crate) fn undo(session: &mut Session) -> Result<(), EditFault> {
    session.undo()
}

// What the last image took.
pub(crate) fn cost(session: &Session) -> (u64, u64) {
    session.cost()
}

// What was drawn, with the evaluations and the traced steps that it took.
#[derive(Debug, Drop)]
pub(crate) struct Drawn {
    pub(crate) bytes: Vec<u8>,
    pub(crate) points: u64,
    pub(crate) spans: u64,
}

fn can_draw(frame: &Frame) -> bool
    ensures { IsTrue result → CanDraw frame.now }
{
    match frame {
        Frame::Height(view) => view.fits_height(),
        Frame::Mesh(view) => view.fits_mesh(),
        Frame::Render(_) | Frame::Text => true,
        // A session draws none of these.
        Frame::Shade(_) | Frame::Contour(_) => false,
    }
}

// The bytes of a frame. None: memory was refused.
fn bytes_of(session: &mut Session, frame: &Frame, tally: &mut Tally) -> Option<Vec<u8>>
    requires { CanDraw frame.now }
{
    match frame {
        Frame::Render(view) => session.render(view, tally).ok(),
        Frame::Height(view) => session.height(view, tally).ok(),
        Frame::Mesh(view) => session.mesh(view, tally).ok(),
        Frame::Text => session.text().ok(),
        Frame::Shade(_) | Frame::Contour(_) => None,
    }
}

// Draws a frame. None: memory was refused, or it can not be drawn.
pub(crate) fn draw(session: &mut Session, frame: &Frame) -> Option<Drawn> {
    if !can_draw(frame) {
        return None;
    }
    let mut tally = Tally::new();
    let bytes = bytes_of(session, frame, &mut tally)?;
    Some(Drawn {
        bytes,
        points: tally.points(),
        spans: tally.spans(),
    })
}

// A session that begins with the model that stands in this one. None: memory was refused.
fn reopened(alloc: Global, session: &Session) -> Option<Session> {
    let text = session.text().ok()?;
    open(alloc, &text)
}

// Draws a frame in such a session. None: memory was refused.
pub(crate) fn draw_fresh(alloc: Global, session: &Session, frame: &Frame) -> Option<Drawn> {
    let mut fresh = reopened(alloc, session)?;
    draw(&mut fresh, frame)
}

// Whether two frames have the same bytes, and took the same work.
fn are_same(one: &Drawn, other: &Drawn) -> bool {
    one.bytes == other.bytes && (one.points, one.spans) == (other.points, other.spans)
}

// Whether a frame is drawn with this work at most. None: memory was refused.
pub(crate) fn takes(session: &mut Session, frame: &Frame, most: (u64, u64)) -> Option<bool> {
    let drawn = draw(session, frame)?;
    Some(drawn.points <= most.0 && drawn.spans <= most.1)
}

// Whether a frame is as one of a fresh session, with the same work. None: memory was refused.
pub(crate) fn is_fresh(alloc: Global, session: &mut Session, frame: &Frame) -> Option<bool> {
    let drawn = draw(session, frame)?;
    let fresh = draw_fresh(alloc, session, frame)?;
    Some(are_same(&drawn, &fresh))
}
