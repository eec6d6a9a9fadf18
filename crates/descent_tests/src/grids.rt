// The mixed cells of grids, fresh ones and after others, and the work that they took.
ghost use Rattle.view_places.specs.Window.{FitsMesh};

use crate::lists::{root, roots};
use fixed_ops::{Fx, Tally};
use kuhn_cells::CellList;
use live_clauses::Tape;
use oct_descent::{OctTree, cell_grid, cell_list, cells, recells};
use std::alloc::{AllocError, Global};
use std::process::Abort;
use std::test::Fail;
use view_places::View;

const HALF: i64 = 1 << 31;

// The ball of radius 0.5.
const BALL: &[u8] =
    b"x var-x\ny var-y\nz var-z\na square x\nb square y\nc square z\nd add a b\ne add d c\n\
    r const 0.25\nf sub e r";

// What lies below 0 along both x and y.
const WALL: &[u8] = b"x var-x\ny var-y\nm max x y";

// Between two spheres.
const SHELL: &[u8] =
    b"x var-x\ny var-y\nz var-z\na square x\nb square y\nc square z\nd add a b\ne add d c\n\
    r const 0.5\nf sub e r\ng abs f\nt const 0.0625\nh sub g t";

// The ball, with a greater radius.
const WIDER: &[u8] =
    b"x var-x\ny var-y\nz var-z\na square x\nb square y\nc square z\nd add a b\ne add d c\n\
    r const 0.3\nf sub e r";

// Where x is less than 0.25 away from -0.5 or from 0.5.
const BARS: &[u8] =
    b"x var-x\np const -0.5\nq const 0.5\na sub x p\nb abs a\nc sub x q\nd abs c\ne min b d\n\
    r const 0.25\nf sub e r";

// The same with 0.625 in place of 0.5.
const MOVED: &[u8] =
    b"x var-x\np const -0.5\nq const 0.625\na sub x p\nb abs a\nc sub x q\nd abs c\ne min b d\n\
    r const 0.25\nf sub e r";

// Bars that meet, so that everything is inside.
const ALL: &[u8] =
    b"x var-x\np const -0.5\nq const 0.5\na sub x p\nb abs a\nc sub x q\nd abs c\ne min b d\n\
    r const 9\nf sub e r";

// Bars of no width.
const NOTHING: &[u8] =
    b"x var-x\np const -0.5\nq const 0.5\na sub x p\nb abs a\nc sub x q\nd abs c\ne min b d\n\
    r const -9\nf sub e r";

// What is 0 everywhere, by ranges that reach above and below it.
const ZERO: &[u8] = b"x var-x\nz sub x x\nk const 9\nm min z k";

// The same with another number that does not matter.
const SAME_ZERO: &[u8] = b"x var-x\nz sub x x\nk const 8\nm min z k";

// Work at most: evaluations, and traced steps.
type Work = (u64, u64);

// A grid of so many cells along x, y and z, from -1 to 1.
fn view(cells: [u32; 3]) -> Result<View, Fail> {
    let [nx, ny, nz] = cells;
    if nx == 0 || nx > 512 || ny == 0 || ny > 512 || nz == 0 || nz > 512 {
        return Err(Fail::new("a number of cells that is out of range"));
    }
    let one = 1 << 32;
    Ok(View {
        x0: -one,
        x1: one,
        y0: -one,
        y1: one,
        z0: -one,
        z1: one,
        z: 0,
        w: 1,
        h: 1,
        d: 1,
        nx,
        ny,
        nz,
    })
}

// The mixed cells of the grid of a list, and its work beside what the tally holds.
fn fresh(alloc: Global, list: &Tape, view: &View, tally: &mut Tally) -> Result<CellList, AllocError>
    requires { FitsMesh view.now }
{
    let grid = cell_grid(alloc, list, view, tally)?;
    cell_list(alloc, &grid)
}

// The cells of the grid of a list along x, y and z, and how many of them are mixed.
fn counts(
    alloc: Global,
    list: &Tape,
    view: &View,
    tally: &mut Tally,
) -> Result<([u32; 3], usize), AllocError>
    requires { FitsMesh view.now }
{
    let found = fresh(alloc, list, view, tally)?;
    Ok(([found.nx, found.ny, found.nz], found.cells.len()))
}

// So many cells of the grid of a list are mixed, with this work at most.
fn expect_cells(
    rt: &impl Abort,
    alloc: Global,
    list: &Tape,
    n: [u32; 3],
    count: usize,
    work: Work,
) -> Result<(), Fail> {
    let view = view(n)?;
    if !view.fits_mesh() {
        return Err(Fail::new("a view without room"));
    }
    let mut tally = Tally::new();
    let found = counts(alloc, list, &view, &mut tally)?;
    let is_within = tally.points() <= work.0 && tally.spans() <= work.1;
    assert!(rt; found == (n, count), "of {n:?}");
    assert!(rt; is_within, "work of {n:?}");
    Ok(())
}

// The mixed cells of the wall are in order, with their values.
fn expect_wall_cells(rt: &impl Abort, alloc: Global, list: &Tape) -> Result<(), Fail> {
    let view = view([4; 3])?;
    if !view.fits_mesh() {
        return Err(Fail::new("a view without room"));
    }
    let found = fresh(alloc, list, &view, &mut Tally::new())?;
    expect_in_order(rt, &found);
    Ok(())
}

// The places of the first cells of the wall.
const PLACES: [[u16; 3]; 6] = [
    [0, 0, 0],
    [1, 0, 0],
    [0, 1, 0],
    [1, 1, 0],
    [0, 0, 1],
    [1, 0, 1],
];

fn expect_in_order(rt: &impl Abort, list: &CellList) {
    assert!(rt; list.cells.len() == 16);
    for (cell, place) in list.cells.iter().zip(&PLACES) {
        assert!(rt; [cell.x, cell.y, cell.z] == *place, "not {place:?}");
    }
    let zero = Fx::from_raw(0);
    let inner = Fx::from_raw(-HALF);
    let values = [zero, zero, zero, zero, inner, zero, zero, zero];
    assert!(rt; list.cells[3].values == values);
}

// The grids of some lists, each after the one before and with this work at most, have the cells of fresh ones.
fn expect_grids(
    rt: &impl Abort,
    alloc: Global,
    lists: &[Tape],
    n: [u32; 3],
    works: &[Work],
) -> Result<(), Fail> {
    let view = view(n)?;
    if !view.fits_mesh() {
        return Err(Fail::new("a view without room"));
    }
    let [first, others @ ..] = lists else {
        return Err(Fail::new("no list"));
    };
    assert!(rt; others.len() == works.len());
    let mut tree = cells(alloc, first, &view, &mut Tally::new())?;
    expect_fresh(rt, alloc, &tree, first, &view);
    for (list, work) in others.iter().zip(works) {
        tree = next(rt, tree, list, *work)?;
        expect_fresh(rt, alloc, &tree, list, &view);
    }
    Ok(())
}

// The grid of a list after another, with this work at most.
fn next(rt: &impl Abort, old: OctTree, list: &Tape, work: Work) -> Result<OctTree, AllocError> {
    let mut tally = Tally::new();
    let tree = recells(old, list, &mut tally);
    assert!(rt;
        tally.points() <= work.0 && tally.spans() <= work.1,
        "more than {work:?}"
    );
    tree
}

// A grid has the cells of a fresh one.
fn expect_fresh(rt: &impl Abort, alloc: Global, tree: &OctTree, list: &Tape, view: &View)
    requires { FitsMesh view.now }
{
    match has_fresh_cells(alloc, tree, list, view) {
        Ok(is_fresh) => assert!(rt; is_fresh, "other cells than those of a fresh grid"),
        Err(_) => assert!(rt; false, "no fresh grid"),
    }
}

fn has_fresh_cells(
    alloc: Global,
    tree: &OctTree,
    list: &Tape,
    view: &View,
) -> Result<bool, AllocError>
    requires { FitsMesh view.now }
{
    let wanted = fresh(alloc, list, view, &mut Tally::new())?;
    has_cells(alloc, tree, &wanted)
}

fn has_cells(alloc: Global, tree: &OctTree, wanted: &CellList) -> Result<bool, AllocError> {
    let found = cell_list(alloc, tree.grid())?;
    Ok(found.cells == wanted.cells)
}

fn expect_root_cells(
    rt: &impl Abort,
    alloc: Global,
    text: &[u8],
    n: [u32; 3],
    count: usize,
    work: Work,
) -> Result<(), Fail> {
    let list = root(alloc, text)?;
    expect_cells(rt, alloc, &list, n, count, work)
}

fn expect_root_grids(
    rt: &impl Abort,
    alloc: Global,
    texts: &[&[u8]],
    n: [u32; 3],
    works: &[Work],
) -> Result<(), Fail> {
    let lists = roots(alloc, texts)?;
    expect_grids(rt, alloc, &lists, n, works)
}

// Models, the numbers of cells, how many are mixed, and evaluations and traced steps at most.
const MIXED: [(&[u8], [u32; 3], usize, u64, u64); 18] = [
    (BALL, [2; 3], 8, 270, 90),
    (BALL, [4; 3], 8, 270, 730),
    (BALL, [8; 3], 56, 1240, 1370),
    (BALL, [9; 3], 98, 2080, 2810),
    (b"a const 1", [4; 3], 0, 0, 1),
    (b"a const -1", [1; 3], 0, 8, 1),
    (b"a const -1", [2; 3], 8, 27, 9),
    (b"a const -1", [4; 3], 56, 124, 73),
    (b"x var-x", [4; 3], 32, 75, 41),
    (WALL, [5; 3], 42, 264, 181),
    (SHELL, [8; 3], 96, 3952, 6773),
    // A plane across each axis.
    (b"x var-x", [9, 17, 5], 290, 592, 579),
    (b"y var-y", [9, 17, 5], 258, 528, 579),
    (b"z var-z", [9, 17, 5], 354, 720, 647),
    // With one cell along an axis no point is inside.
    (b"y var-y", [1, 8, 17], 0, 180, 117),
    (b"a const -1", [8, 1, 17], 0, 324, 229),
    (BALL, [17, 8, 1], 0, 1000, 850),
    (BALL, [2, 9, 5], 30, 720, 890),
];

fn expect_mixed(
    rt: &impl Abort,
    alloc: Global,
    rows: &[(&[u8], [u32; 3], usize, u64, u64)],
) -> Result<(), Fail> {
    for (text, n, count, points, spans) in rows {
        expect_root_cells(rt, alloc, text, *n, *count, (*points, *spans))?;
    }
    Ok(())
}

#[test]
fn mixed_cells_take_no_more_than_the_bounds(rt: HostRuntime) -> Result<(), Fail> {
    expect_mixed(&rt, rt.alloc(), &MIXED)
}

#[test]
fn mixed_cells_are_in_order_with_their_values(rt: HostRuntime) -> Result<(), Fail> {
    let list = root(rt.alloc(), WALL)?;
    expect_wall_cells(&rt, rt.alloc(), &list)
}

// Two models, the numbers of cells, and evaluations and traced steps of the second at most.
const AFTER: [(&[u8], &[u8], [u32; 3], u64, u64); 19] = [
    (BALL, BALL, [2; 3], 0, 0),
    (BALL, WIDER, [2; 3], 270, 90),
    (BARS, MOVED, [4; 3], 750, 410),
    (MOVED, BARS, [4; 3], 750, 410),
    (BARS, BARS, [3; 3], 0, 0),
    (BARS, ALL, [8; 3], 4296, 3674),
    (ALL, BARS, [8; 3], 3564, 4186),
    (BARS, NOTHING, [8; 3], 0, 10),
    (NOTHING, BARS, [8; 3], 3564, 4186),
    (ZERO, SAME_ZERO, [3; 3], 0, 4),
    (BARS, MOVED, [1; 3], 80, 10),
    (BALL, NOTHING, [1; 3], 0, 10),
    (NOTHING, ALL, [1; 3], 80, 10),
    (BARS, MOVED, [1, 8, 17], 3240, 2290),
    (BARS, MOVED, [8, 1, 17], 864, 710),
    (BARS, MOVED, [8, 17, 1], 864, 710),
    (NOTHING, BARS, [17, 8, 1], 1296, 1202),
    (BARS, ALL, [9, 2, 3], 864, 690),
    (b"x var-x", b"y var-y", [2, 3, 4], 45, 25),
];

fn expect_after(
    rt: &impl Abort,
    alloc: Global,
    rows: &[(&[u8], &[u8], [u32; 3], u64, u64)],
) -> Result<(), Fail> {
    for (text, then, n, points, spans) in rows {
        expect_root_grids(rt, alloc, &[text, then], *n, &[(*points, *spans)])?;
    }
    Ok(())
}

#[test]
fn grids_after_others_take_no_more_than_the_bounds(rt: HostRuntime) -> Result<(), Fail> {
    expect_after(&rt, rt.alloc(), &AFTER)
}

// Models, and the work of each at most behind the first.
const SERIES: [&[u8]; 6] = [BARS, MOVED, BARS, BARS, NOTHING, BARS];

const SERIES_WORKS: [Work; 5] = [(750, 410), (750, 410), (0, 0), (0, 10), (1050, 602)];

#[test]
fn grids_go_on_after_others(rt: HostRuntime) -> Result<(), Fail> {
    expect_root_grids(&rt, rt.alloc(), &SERIES, [4; 3], &SERIES_WORKS)
}
