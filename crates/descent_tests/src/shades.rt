// The light on height maps of models, worked out by hand.
ghost use Rattle.view_places.specs.Window.{FitsHeight};

use crate::lists::root;
use fixed_ops::Tally;
use height_map::heights;
use live_clauses::Tape;
use normal_shade::shade;
use std::alloc::{AllocError, Global};
use std::process::Abort;
use std::test::Fail;
use view_places::View;

const ONE: i64 = 1 << 32;

// From -1 to 1 along each axis, with so many columns, rows and samples of a column. None: one of them is 0.
fn view(w: u8, h: u8, d: u8) -> Option<View> {
    if w == 0 || h == 0 || d == 0 {
        return None;
    }
    Some(View {
        x0: -ONE,
        x1: ONE,
        y0: -ONE,
        y1: ONE,
        z0: -ONE,
        z1: ONE,
        z: 0,
        w: u32::from(w),
        h: u32::from(h),
        d: u32::from(d),
        nx: 1,
        ny: 1,
        nz: 1,
    })
}

// This is the light on the root list of a text over so many columns, rows and samples of a column, with so many
// evaluations beside those of the height map.
fn expect(
    rt: &impl Abort,
    alloc: Global,
    text: &[u8],
    counts: (u8, u8, u8),
    light: &[u8],
    points: u64,
) -> Result<(), Fail> {
    let list = root(alloc, text)?;
    expect_light(rt, alloc, &list, counts, light, points)
}

// The same of a list.
fn expect_light(
    rt: &impl Abort,
    alloc: Global,
    list: &Tape,
    counts: (u8, u8, u8),
    light: &[u8],
    points: u64,
) -> Result<(), Fail> {
    let Some(view) = view(counts.0, counts.1, counts.2) else {
        return Err(Fail::new("a count of 0"));
    };
    if !view.fits_height() {
        return Err(Fail::new("a view that is too large"));
    }
    let mut tally = Tally::new();
    let is_light = has_light(alloc, list, &view, light, &mut tally)?;
    assert!(rt; is_light && tally.points() == points, "of {counts:?}");
    Ok(())
}

// Whether this is the light on the height map of a list. The work beside that of the map is counted.
fn has_light(
    alloc: Global,
    list: &Tape,
    view: &View,
    light: &[u8],
    tally: &mut Tally,
) -> Result<bool, AllocError>
    requires { FitsHeight view.now }
{
    let map = heights(alloc, list, view, &mut Tally::new())?;
    let pixels = shade(alloc, list, view, &map.tops, tally)?;
    Ok(pixels.as_slice() == light)
}

// A model's text, the columns, rows and samples of a column, the light, and the evaluations: at each top
// sample one for each step of the list that lights it, and those of the derivatives of the steps that are
// reached.
type Case = (&'static [u8], (u8, u8, u8), &'static [u8], u64);

const CASES: [Case; 9] = [
    (b"z var-z", (1, 1, 3), &[255], 1),
    // Three values, and three sums of derivatives.
    (b"x var-x\nz var-z\nf add x z", (1, 1, 3), &[128], 6),
    (b"a const -1", (1, 1, 3), &[255], 1),
    (b"a const 1", (1, 1, 3), &[0], 0),
    // Where x is 1 nothing is inside.
    (
        b"x var-x\nz var-z\nf add x z",
        (3, 1, 3),
        &[128, 128, 0],
        12,
    ),
    // Where x is 0 the surface lies flat. In the lower row y is -1. Six values, and four, nine and three
    // operations for the square, the product and the sum, in each of four columns.
    (
        b"x var-x\ny var-y\nz var-z\na square x\nb mul y a\nf add z b",
        (3, 2, 3),
        &[0, 255, 0, 64, 255, 64],
        88,
    ),
    // A wall: the light is the same all over, in boxes that are decided too.
    (
        b"x var-x\nh const 0.5\nf sub x h",
        (4, 1, 40),
        &[1, 1, 1, 0],
        18,
    ),
    // All of the box is inside by the first operand, which alone is left of the list.
    (b"c const -5\nz var-z\nf min c z", (2, 1, 2), &[255, 255], 2),
    // Neither operand is chosen over the box, and each column takes one: five values, and three sums or
    // differences for the one that is taken.
    (
        b"x var-x\nz var-z\np add x z\nq sub z x\nf min p q",
        (3, 1, 3),
        &[128, 128, 128],
        24,
    ),
];

fn expect_all(rt: &impl Abort, alloc: Global, rows: &[Case]) -> Result<(), Fail> {
    for (text, counts, light, points) in rows {
        expect(rt, alloc, text, *counts, light, *points)?;
    }
    Ok(())
}

#[test]
fn what_lies_nearest_is_lit_by_its_slopes(rt: HostRuntime) -> Result<(), Fail> {
    expect_all(&rt, rt.alloc(), &CASES)
}
