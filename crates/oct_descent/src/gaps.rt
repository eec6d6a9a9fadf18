// Points that are evaluated side by side.
ghost use Rattle.std.specs.Prelude.{◌≡◌, ◌*◌, ◌<◌, ◌≤◌, ℕ, length, take};
ghost use Rattle.std.specs.List.{All};
ghost use Rattle.choice_trace.specs.Lanes.{point_in};
ghost use Rattle.fixed_ops.specs.Counts.{RisesBy, points_of};
ghost use Rattle.kuhn_cells.specs.Grids.{bordered};
ghost use Rattle.kuhn_cells.specs.Sizes.{SameSize};
ghost use Rattle.kuhn_cells.specs.Triangles.{point};
ghost use Rattle.view_places.specs.declared.lattice.Lattice.TheVariants as lattices;
ghost use Rattle.oct_descent.specs.Gaps.{Fills, StandsIn, lies_at, nth};
ghost use Rattle.oct_descent.specs.GridValues.{list_grid_value};
ghost use Rattle.view_places.specs.Window.{size_of};
ghost use Rattle.oct_descent.specs.Tables.{KeepsPlaces};

use crate::gap::Gap;
use crate::grid_values::GridValues;
use box_chains::Places;
use choice_trace::{Inputs, evaluate_lanes};
use fixed_ops::{Fx, Tally, border};
use kuhn_cells::GridSize;
use live_clauses::Steps;

/// Evaluates a list at some points, and keeps their values. One evaluation is counted for each.
pub fn fill_gaps(
    places: &Places,
    gaps: &[Gap],
    list: &Steps<'_>,
    rows: &mut [[Fx; 8]],
    values: &mut GridValues,
    tally: &mut Tally,
)
    requires lattice { places.now.lattice ≡ lattices.Grid }
    requires n { SameSize values.old.n (size_of places.now.view) }
    requires room { length list.now ≤ length rows.old }
    requires stand { All (StandsIn values.old) gaps.now }
    ensures fills { Fills (list_grid_value places.now.view list.now) gaps.now values.old values.new }
    ensures counted { RisesBy tally.old tally.new (points_of (length gaps.now * length list.now)) }
{
    let mut at = 0;
    while at < gaps.len() {
        at += fill_some(places, &gaps[at..], list, rows, values, tally);
    }
}

// Evaluates a list at the first of some points: eight side by side, four, two, or one. Gives how
// many.
#[inline]
fn fill_some(
    places: &Places,
    gaps: &[Gap],
    list: &Steps<'_>,
    rows: &mut [[Fx; 8]],
    values: &mut GridValues,
    tally: &mut Tally,
) -> usize
    requires lattice { places.now.lattice ≡ lattices.Grid }
    requires n { SameSize values.old.n (size_of places.now.view) }
    requires room { length list.now ≤ length rows.old }
    requires some { 0 < length gaps.now }
    requires stand { All (StandsIn values.old) gaps.now }
    ensures some { 0 < result }
    ensures few { result ≤ length gaps.now }
    ensures fills { Fills (list_grid_value places.now.view list.now) (take result gaps.now) values.old
        values.new }
    ensures keeps { KeepsPlaces values.old values.new }
    ensures counted { RisesBy tally.old tally.new (points_of (result * length list.now)) }
{
    if gaps.len() >= 8 {
        fill_lanes::<8>(places, &gaps[..8], list, rows, values, tally);
        8
    } else if gaps.len() >= 4 {
        fill_lanes::<4>(places, &gaps[..4], list, rows, values, tally);
        4
    } else if gaps.len() >= 2 {
        fill_lanes::<2>(places, &gaps[..2], list, rows, values, tally);
        2
    } else {
        fill_lanes::<1>(places, &gaps[..1], list, rows, values, tally);
        1
    }
}

// Evaluates a list at L points side by side.
fn fill_lanes<const L: usize>(
    places: &Places,
    gaps: &[Gap],
    list: &Steps<'_>,
    rows: &mut [[Fx; 8]],
    values: &mut GridValues,
    tally: &mut Tally,
)
    requires lanes { L ≤ 8 }
    requires many { length gaps.now ≡ L }
    requires lattice { places.now.lattice ≡ lattices.Grid }
    requires n { SameSize values.old.n (size_of places.now.view) }
    requires room { length list.now ≤ length rows.old }
    requires stand { All (StandsIn values.old) gaps.now }
    ensures fills { Fills (list_grid_value places.now.view list.now) gaps.now values.old values.new }
    ensures keeps { KeepsPlaces values.old values.new }
    ensures counted { RisesBy tally.old tally.new (points_of (L * length list.now)) }
{
    let n = values.n();
    let inputs = gather::<L>(places, n, gaps);
    let row = evaluate_lanes::<L>(list, &inputs, rows, tally);
    for lane in 0..L {
        let gap = gaps[lane];
        values.set(gap.at, closed(row[lane], n, gap.x, gap.y, gap.z));
    }
}

// The places of L points, each in its lane.
#[inline]
fn gather<const L: usize>(places: &Places, n: GridSize, gaps: &[Gap]) -> Inputs<[Fx; 8]>
    requires lanes { L ≤ 8 }
    requires many { length gaps.now ≡ L }
    requires lattice { places.now.lattice ≡ lattices.Grid }
    requires n { SameSize n (size_of places.now.view) }
    requires x { (i : ℕ) → i < L → (nth gaps.now i).x ≤ n.x }
    requires y { (i : ℕ) → i < L → (nth gaps.now i).y ≤ n.y }
    requires z { (i : ℕ) → i < L → (nth gaps.now i).z ≤ n.z }
    ensures { (lane : ℕ) → lane < L → point_in lane result
        ≡ lies_at places.now.view (nth gaps.now lane) }
{
    let zeros = [Fx::from_raw(0); 8];
    let mut x = zeros;
    let mut y = zeros;
    let mut z = zeros;
    for lane in 0..L {
        let gap = gaps[lane];
        x[lane] = places.x(gap.x);
        y[lane] = places.y(gap.y);
        z[lane] = places.z(gap.z);
    }
    Inputs { x, y, z }
}

// A value as it counts at a point: in the outermost layer no point is inside.
#[inline]
fn closed(value: Fx, n: GridSize, x: u32, y: u32, z: u32) -> Fx
    ensures { result ≡ bordered n (point x y z) value }
{
    if x == 0 || x == n.x || y == 0 || y == n.y || z == 0 || z == n.z {
        border(value)
    } else {
        value
    }
}
