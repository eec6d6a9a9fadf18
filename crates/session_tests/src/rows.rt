// The rows of the last image in bands, and meshes of several views.
ghost use Rattle.std.specs.Prelude.{◌<◌};
ghost use Rattle.quad_descent.specs.Rows.{IsOver};

use crate::fixtures::{BARS, ONE, Sides, is_fresh, open, takes, view, view_of};
use clause_reader::read_model;
use edit_session::Session;
use fixed_ops::Tally;
use model_frames::{Frame, draw_image};
use quad_descent::image;
use std::alloc::Global;
use std::process::Abort;
use view_places::View;

// A disc about the middle.
const DISC: &[u8] =
    b"a var-x\nb var-y\nc square a\nd square b\ne add c d\nr const 0.5\nf sub e r\n";

// The columns and rows of images, and how many rows are painted together.
const SIDES: [u32; 4] = [1, 9, 17, 1000];

const TOGETHER: [u32; 4] = [1, 2, 7, 16];

// Paints rows of the last image of a session, which are those of these pixels.
#[tactic(auto, using(crate::proofs::Asked::are_rows))]
fn assert_rows(
    rt: &impl Abort,
    session: &Session,
    view: &View,
    row: u32,
    band: &mut [u8],
    pixels: &[u8],
)
    requires { IsOver session.now.image view.now }
{
    let columns = view.w as usize;
    assert!(rt; band.len() % columns == 0);
    assert!(rt; row as usize + band.len() / columns <= view.h as usize);
    session.raster_rows(row, band);
    let front = row as usize * columns;
    match pixels.get(front..) {
        Some(rest) => assert!(rt; rest.starts_with(band)),
        None => assert!(rt; false, "more rows than the image has"),
    }
}

// Paints the last image of a session, so many rows at a time. None: memory was refused.
fn assert_bands(
    rt: &impl Abort,
    alloc: Global,
    session: &Session,
    view: &View,
    together: u32,
    pixels: &[u8],
) -> Option<()>
    requires over { IsOver session.now.image view.now }
    requires some { 0 < together }
{
    for row in 0..view.h {
        if row % together == 0 {
            let rows = together.min(view.h - row);
            let mut band = vec![in alloc; 1; rows as usize * view.w as usize].ok()?;
            assert_rows(rt, session, view, row, &mut band, pixels);
        }
    }
    Some(())
}

// Paints the last image of a session in bands of these heights. None: memory was refused.
fn assert_painted(
    rt: &impl Abort,
    alloc: Global,
    session: &Session,
    view: &View,
    heights: &[u32],
    pixels: &[u8],
) -> Option<()>
    requires { IsOver session.now.image view.now }
{
    for together in heights {
        assert!(rt; 0 < *together);
        assert_bands(rt, alloc, session, view, *together, pixels)?;
    }
    Some(())
}

// The pixels of an image of the disc, drawn without a session. None: memory was refused.
fn disc_pixels(alloc: Global, view: &View) -> Option<Vec<u8>> {
    let disc = read_model(alloc, DISC).ok()?;
    let picture = draw_image(alloc, &disc, view, &mut Tally::new()).ok()?;
    let grid = image(alloc, &picture).ok()?;
    Some(grid.pixels)
}

// Draws an image of the disc, and paints it in bands. None: memory was refused.
#[tactic(auto, using(crate::proofs::Asked::over_drawn))]
fn assert_disc(rt: &impl Abort, alloc: Global, session: &mut Session, view: &View) -> Option<()> {
    let pixels = disc_pixels(alloc, view)?;
    let Ok(text) = session.render(view, &mut Tally::new()) else {
        return None;
    };
    assert!(rt; text.as_slice().ends_with(&pixels));
    assert_painted(rt, alloc, session, view, &TOGETHER, &pixels)
}

// Draws images of the disc of so many columns and these rows. None: memory was refused.
fn assert_columns(
    rt: &impl Abort,
    alloc: Global,
    session: &mut Session,
    w: u32,
    rows: &[u32],
) -> Option<()> {
    for h in rows {
        let view = view(w, *h, 1)?;
        assert_disc(rt, alloc, session, &view)?;
    }
    Some(())
}

// Draws images of the disc of all these sides. None: memory was refused.
fn assert_sides(
    rt: &impl Abort,
    alloc: Global,
    session: &mut Session,
    sides: &[u32],
) -> Option<()> {
    for w in sides {
        assert_columns(rt, alloc, session, *w, sides)?;
    }
    Some(())
}

fn assert_discs(rt: &impl Abort, alloc: Global) -> Option<()> {
    let mut session = open(alloc, DISC)?;
    assert_sides(rt, alloc, &mut session, &SIDES)
}

#[test]
fn rows_are_the_same_however_many_are_asked_for(rt: HostRuntime) {
    assert!(rt; assert_discs(&rt, rt.alloc()).is_some());
}

// The end along x, the end along z, the columns, and the cells along x, y and z, of views that differ from the
// first in an end, below or above, or in a count that no mesh uses, and of views with as many cells in all. An
// equal view is the whole view.
type Other = (i64, i64, u32, [u32; 3]);

const OTHERS: [Other; 6] = [
    (0, ONE, 8, [4, 4, 4]),
    (-ONE, 0, 8, [4, 4, 4]),
    (-ONE, ONE, 9, [4, 4, 4]),
    (-ONE, ONE, 8, [4, 2, 3]),
    (-ONE, ONE, 8, [3, 2, 4]),
    (-ONE, ONE, 8, [2, 3, 4]),
];

// Draws a mesh of another view, twice, and then one of the first view: the second takes nothing, and the others
// are as fresh ones. None: memory was refused.
fn are_fresh(alloc: Global, session: &mut Session, other: &Frame, first: &Frame) -> Option<bool> {
    let is_other = is_fresh(alloc, session, other)?;
    let is_kept = takes(session, other, (0, 0))?;
    Some(is_fresh(alloc, session, first)? && is_other && is_kept)
}

// Draws meshes of each other view, each between two of the first view. None: memory was refused.
fn assert_views(
    rt: &impl Abort,
    alloc: Global,
    session: &mut Session,
    others: &[Other],
) -> Option<()> {
    let first = Frame::Mesh(view_of(Sides::of(8, 8, [4; 3]))?);
    assert!(rt; is_fresh(alloc, session, &first)?);
    for (x0, z1, w, n) in others {
        let sides = Sides {
            x0: *x0,
            z1: *z1,
            w: *w,
            h: 8,
            n: *n,
        };
        let other = Frame::Mesh(view_of(sides)?);
        assert!(rt; are_fresh(alloc, session, &other, &first)?, "{n:?}");
    }
    Some(())
}

fn assert_meshes(rt: &impl Abort, alloc: Global) -> Option<()> {
    let mut session = open(alloc, BARS)?;
    assert_views(rt, alloc, &mut session, &OTHERS)
}

#[test]
fn meshes_of_another_view_are_fresh(rt: HostRuntime) {
    assert!(rt; assert_meshes(&rt, rt.alloc()).is_some());
}
