// Frames of a ball, worked out by hand.
ghost use Rattle.view_places.specs.Window.{FitsContour, FitsHeight, FitsMesh};
ghost use Rattle.model_frames.specs.Frames.{CanDraw};

use arrayvec::ArrayVec;
use clause_reader::read_model;
use fixed_ops::Tally;
use grid_text::GridPieces;
use model_frames::{Drawn, Frame, image_text, solid_mesh};
use oct_descent::CellGrid;
use ply_writer::ply_text;
use raster_pgm::pgm_head;
use solid_model::Model;
use std::alloc::Global;
use std::process::Abort;
use std::test::Fail;
use view_places::View;

// A ball of radius 0.5.
const BALL: &[u8] =
    b"x var-x\ny var-y\nz var-z\na square x\nb square y\nc square z\nd add a b\ne add d c\n\
    r const 0.25\nf sub e r\n";

// The ball's clauses as they are written.
const BALL_TEXT: &[u8] =
    b"x var-x\ny var-y\nz var-z\na square x\nb square y\nc square z\nd add a b\ne add d c\n\
    r const 0.2500000000\nf sub e r\n";

// The picture and the map with only the middle one of nine samples or columns inside. There the
// middle one of three samples along z lies within, whose top is 2.
const MIDDLE: &[u8] = b"P5\n3 3\n255\n\x00\x00\x00\x00\xff\x00\x00\x00\x00";

const MIDDLE_TOP: &[u8] = b"P5\n3 3\n3\n\x00\x00\x00\x00\x02\x00\x00\x00\x00";

// The light in the middle row of nine columns, of which three are inside at 0.25 along z and higher up none:
// there the middle one slopes along z alone, and each of the others as much along x.
const MIDDLE_LIGHT: &[u8] =
    b"P5\n9 3\n255\n\x00\x00\x00\x00\x00\x00\x00\x00\x00\x00\x00\x00\x80\xff\x80\x00\x00\x00\
    \x00\x00\x00\x00\x00\x00\x00\x00\x00";

// The contour round the middle one of nine points.
const MIDDLE_PATH: &[u8] = b"M -0.1250000000 -0.1250000000 L 0.0000000000 -0.2500000000 \
    L 0.2500000000 0.0000000000 L 0.1250000000 0.1250000000 L 0.0000000000 0.2500000000 \
    L -0.2500000000 0.0000000000 Z\n";

// The mesh round the middle one of 27 points.
const MIDDLE_MESH: &[u8] =
    b"ply\nformat ascii 1.0\nelement vertex 14\nproperty double x\nproperty double y\n\
    property double z\nelement face 24\nproperty list uchar int vertex_indices\nend_header\n\
    -0.0833282470 -0.0833282470 -0.0833282470\n0.0000000000 -0.1250000000 -0.1250000000\n\
    -0.1250000000 0.0000000000 -0.1250000000\n0.0000000000 0.0000000000 -0.2500000000\n\
    -0.1250000000 -0.1250000000 0.0000000000\n0.0000000000 -0.2500000000 0.0000000000\n\
    -0.2500000000 0.0000000000 0.0000000000\n0.2500000000 0.0000000000 0.0000000000\n\
    0.0000000000 0.2500000000 0.0000000000\n0.1250000000 0.1250000000 0.0000000000\n\
    0.0000000000 0.0000000000 0.2500000000\n0.1250000000 0.0000000000 0.1250000000\n\
    0.0000000000 0.1250000000 0.1250000000\n0.0833282470 0.0833282470 0.0833282470\n3 0 3 1\n\
    3 0 1 5\n3 0 2 3\n3 0 6 2\n3 0 5 4\n3 0 4 6\n3 1 3 7\n3 1 7 5\n3 2 8 3\n3 2 6 8\n3 3 9 7\n\
    3 3 8 9\n3 4 5 10\n3 4 10 6\n3 5 7 11\n3 5 11 10\n3 6 12 8\n3 6 10 12\n3 7 9 13\n3 7 13 11\n\
    3 8 13 9\n3 8 12 13\n3 10 11 13\n3 10 13 12\n";

// Three samples along each axis, from -1 to 1.
fn view() -> View
    ensures height { FitsHeight result }
    ensures mesh { FitsMesh result }
    ensures contour { FitsContour result }
{
    View {
        x0: -1 << 32,
        x1: 1 << 32,
        y0: -1 << 32,
        y1: 1 << 32,
        z0: -1 << 32,
        z1: 1 << 32,
        z: 0,
        w: 3,
        h: 3,
        d: 3,
        nx: 2,
        ny: 2,
        nz: 2,
    }
}

// Nine of them along x and z.
fn fine_view() -> View
    ensures { FitsHeight result }
{
    View {
        w: 9,
        d: 9,
        ..view()
    }
}

// Whether what is drawn has these bytes.
fn has_bytes(alloc: Global, drawn: &Drawn, bytes: &[u8]) -> Result<bool, Fail> {
    match drawn {
        Drawn::Image(picture) => Ok(image_text(alloc, picture)?.as_slice() == bytes),
        Drawn::Pixels(view, pixels) => Ok(are_after_head(view, pixels, bytes)),
        Drawn::Mesh(grid) => are_pieces_of(alloc, grid, bytes),
        Drawn::Bytes(text) => Ok(text.as_slice() == bytes),
    }
}

// Whether these are the bytes of a picture of this view that has these pixels.
fn are_after_head(view: &View, pixels: &[u8], bytes: &[u8]) -> bool {
    let mut head = ArrayVec::new();
    pgm_head(view.w, view.h, 255, &mut head);
    bytes.strip_prefix(head.as_slice()) == Some(pixels)
}

// Whether these are the bytes of the text of the mesh of a grid, piece by piece.
fn are_pieces_of(alloc: Global, grid: &CellGrid, bytes: &[u8]) -> Result<bool, Fail> {
    let mut pieces = GridPieces::new(alloc, grid)?;
    Ok(give(&mut pieces, bytes))
}

fn give(pieces: &mut GridPieces<'_>, bytes: &[u8]) -> bool {
    let mut rest = bytes;
    // None of these has as many pieces.
    for _ in 0..100 {
        let Some(others) = rest.strip_prefix(pieces.piece()) else {
            return false;
        };
        rest = others;
        if !pieces.advance() {
            break;
        }
    }
    rest.is_empty()
}

// Draws a frame, and compares its bytes.
fn expect(
    rt: &impl Abort,
    alloc: Global,
    model: &Model,
    frame: Frame,
    bytes: &[u8],
) -> Result<(), Fail>
    requires { CanDraw frame }
{
    let drawn = frame.draw(alloc, model, &mut Tally::new())?;
    let has_bytes = has_bytes(alloc, &drawn, bytes)?;
    assert!(rt; has_bytes, "{frame:?}");
    Ok(())
}

fn expect_each(rt: &impl Abort, alloc: Global, model: &Model) -> Result<(), Fail> {
    let view = view();
    expect(rt, alloc, model, Frame::Render(view), MIDDLE)?;
    expect(rt, alloc, model, Frame::Height(view), MIDDLE_TOP)?;
    expect(rt, alloc, model, Frame::Shade(fine_view()), MIDDLE_LIGHT)?;
    expect(rt, alloc, model, Frame::Mesh(view), MIDDLE_MESH)?;
    expect(rt, alloc, model, Frame::Contour(view), MIDDLE_PATH)?;
    expect(rt, alloc, model, Frame::Text, BALL_TEXT)
}

#[test]
fn draws_each_kind_of_frame(rt: HostRuntime) -> Result<(), Fail> {
    let model = read_model(rt.alloc(), BALL)?;
    expect_each(&rt, rt.alloc(), &model)
}

// The text of a model's mesh by its lists.
fn mesh_text(alloc: Global, model: &Model, view: &View) -> Result<Vec<u8>, Fail>
    requires { FitsMesh view.now }
{
    let mesh = solid_mesh(alloc, model, view, &mut Tally::new())?;
    Ok(ply_text(alloc, &mesh, view)?)
}

fn expect_mesh(rt: &impl Abort, alloc: Global, model: &Model) -> Result<(), Fail> {
    let text = mesh_text(alloc, model, &view())?;
    assert!(rt; text.as_slice() == MIDDLE_MESH);
    Ok(())
}

#[test]
fn a_mesh_by_its_lists_has_the_same_text(rt: HostRuntime) -> Result<(), Fail> {
    let model = read_model(rt.alloc(), BALL)?;
    expect_mesh(&rt, rt.alloc(), &model)
}
