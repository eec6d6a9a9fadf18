// Points that are evaluated side by side.
ghost use Rattle.std.specs.Prelude.{◌≡◌, ◌*◌, ◌<◌, ◌≤◌, ℕ, length, take};
ghost use Rattle.std.specs.List.{All};
ghost use Rattle.choice_trace.specs.Lanes.{point_in};
ghost use Rattle.fixed_ops.specs.Counts.{RisesBy, points_of};
ghost use Rattle.kuhn_cells.specs.Sizes.{SameSize};
ghost use Rattle.view_places.specs.declared.lattice.Lattice.TheVariants as lattices;
ghost use Rattle.view_places.specs.Window.{size_of};
ghost use Rattle.contour_lines.specs.Gaps.{Fills, StandsIn, lies_at, nth};
ghost use Rattle.contour_lines.specs.Planes.{within_border};
ghost use Rattle.contour_lines.specs.Tables.{known_of};
ghost use Rattle.contour_lines.specs.Ways.{flat_value};

use crate::gap::Gap;
use crate::known_values::KnownValues;
use box_chains::Places;
use choice_trace::{Inputs, evaluate_lanes};
use fixed_ops::{Fx, Tally, border, tallies_add_up};
use kuhn_cells::GridSize;
use live_clauses::Steps;

/// Evaluates a list at some points of the plane grid over a view, and keeps their values. One evaluation
/// is counted for each.
pub fn fill_gaps(
    places: &Places,
    gaps: &[Gap],
    list: &Steps<'_>,
    rows: &mut [[Fx; 8]],
    values: &mut KnownValues,
    tally: &mut Tally,
)
    requires lattice { places.now.lattice ≡ lattices.Grid }
    requires n { SameSize values.old.n (size_of places.now.view) }
    requires room { length list.now ≤ length rows.old }
    requires stand { All (StandsIn (known_of values.old)) gaps.now }
    ensures fills { Fills (flat_value places.now.view list.now) gaps.now (known_of values.old)
        (known_of values.new) }
    ensures counted { RisesBy tally.old tally.new (points_of (length gaps.now * length list.now)) }
{
    tallies_add_up();
    let mut at = 0;
    while at < gaps.len() {
        at += fill_some(places, &gaps[at..], list, rows, values, tally);
    }
}

// Evaluates a list at the first of some points: four side by side, two, or one. Gives how many.
#[inline]
fn fill_some(
    places: &Places,
    gaps: &[Gap],
    list: &Steps<'_>,
    rows: &mut [[Fx; 8]],
    values: &mut KnownValues,
    tally: &mut Tally,
) -> usize
    requires lattice { places.now.lattice ≡ lattices.Grid }
    requires n { SameSize values.old.n (size_of places.now.view) }
    requires room { length list.now ≤ length rows.old }
    requires some { 0 < length gaps.now }
    requires stand { All (StandsIn (known_of values.old)) gaps.now }
    ensures some { 0 < result }
    ensures few { result ≤ length gaps.now }
    ensures fills { Fills (flat_value places.now.view list.now) (take result gaps.now)
        (known_of values.old) (known_of values.new) }
    ensures counted { RisesBy tally.old tally.new (points_of (result * length list.now)) }
{
    if gaps.len() >= 4 {
        fill_lanes::<4>(places, &gaps[..4], list, rows, values, tally);
        4
    } else if gaps.len() >= 2 {
        fill_lanes::<2>(places, &gaps[..2], list, rows, values, tally);
        2
    } else {
        fill_lanes::<1>(places, &gaps[..1], list, rows, values, tally);
        1
    }
}

// Evaluates a list at L points side by side.
fn fill_lanes<const L: usize>(
    places: &Places,
    gaps: &[Gap],
    list: &Steps<'_>,
    rows: &mut [[Fx; 8]],
    values: &mut KnownValues,
    tally: &mut Tally,
)
    requires lanes { L ≤ 8 }
    requires many { length gaps.now ≡ L }
    requires lattice { places.now.lattice ≡ lattices.Grid }
    requires n { SameSize values.old.n (size_of places.now.view) }
    requires room { length list.now ≤ length rows.old }
    requires stand { All (StandsIn (known_of values.old)) gaps.now }
    ensures fills { Fills (flat_value places.now.view list.now) gaps.now (known_of values.old)
        (known_of values.new) }
    ensures counted { RisesBy tally.old tally.new (points_of (L * length list.now)) }
{
    let n = values.n();
    let inputs = gather::<L>(places, n, gaps);
    let row = evaluate_lanes::<L>(list, &inputs, rows, tally);
    for lane in 0..L {
        let gap = gaps[lane];
        values.set(gap.x, gap.y, closed(row[lane], n, gap.x, gap.y));
    }
}

// The places of L points, each in its lane.
#[inline]
fn gather<const L: usize>(places: &Places, n: GridSize, gaps: &[Gap]) -> Inputs<[Fx; 8]>
    requires lanes { L ≤ 8 }
    requires many { length gaps.now ≡ L }
    requires lattice { places.now.lattice ≡ lattices.Grid }
    requires n { SameSize n (size_of places.now.view) }
    requires x { (i : ℕ) → i < L → (nth gaps.now i).x ≤ n.x }
    requires y { (i : ℕ) → i < L → (nth gaps.now i).y ≤ n.y }
    ensures { (lane : ℕ) → lane < L → point_in lane result
        ≡ lies_at places.now.view (nth gaps.now lane) }
{
    let zeros = [Fx::from_raw(0); 8];
    let mut x = zeros;
    let mut y = zeros;
    let mut z = zeros;
    for lane in 0..L {
        let gap = gaps[lane];
        x[lane] = places.x(gap.x);
        y[lane] = places.y(gap.y);
        z[lane] = places.z(0);
    }
    Inputs { x, y, z }
}

// A value as it counts at a point: on the border no point is inside.
#[inline]
fn closed(value: Fx, n: GridSize, x: u32, y: u32) -> Fx
    ensures { result ≡ within_border n x y value }
{
    if x == 0 || x == n.x || y == 0 || y == n.y {
        border(value)
    } else {
        value
    }
}
