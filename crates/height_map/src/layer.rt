// Layers of leaves, whose samples are evaluated side by side.
ghost use Rattle.std.specs.Prelude.{◌≡◌, ◌*◌, ◌<◌, ◌≤◌, ℕ, length, take};
ghost use Rattle.std.specs.List.{All};
ghost use Rattle.choice_trace.specs.Lanes.{point_in};
ghost use Rattle.fixed_ops.specs.Counts.{RisesBy, points_of};
ghost use Rattle.height_map.specs.Columns.{Changes};
ghost use Rattle.height_map.specs.Layers.{IsColumn, layer_top, nth, point_at, stand_at};

use crate::column::Column;
use box_chains::Places;
use choice_trace::{Inputs, evaluate_lanes};
use fixed_ops::{Fx, Tally, is_inside};
use live_clauses::Steps;
use view_places::Lattice;

/// Gives each of some columns whose sample in layer k is inside the top right above it. One
/// evaluation of the list is counted for each of these samples.
pub fn draw_layer(
    places: &Places,
    k: u32,
    columns: &[Column],
    list: &Steps<'_>,
    values: &mut [[Fx; 8]],
    tops: &mut [u16],
    tally: &mut Tally,
)
    requires lattice { places.now.lattice ≡ Lattice.Height }
    requires layer { k < places.now.view.d }
    requires high { k < 1024 }
    requires columns { All (IsColumn places.now.view (length tops.old)) columns.now }
    requires room { length list.now ≤ length values.old }
    ensures tops { Changes (stand_at columns.now) (layer_top places.now.view list.now k)
        tops.old tops.new }
    ensures counted { RisesBy tally.old tally.new
        (points_of (length columns.now * length list.now)) }
{
    let mut at = 0;
    while at < columns.len() {
        at += draw_some(places, k, &columns[at..], list, values, tops, tally);
    }
}

// Draws the first of some columns: eight side by side, four, two, or one. Gives how many.
#[inline]
fn draw_some(
    places: &Places,
    k: u32,
    columns: &[Column],
    list: &Steps<'_>,
    values: &mut [[Fx; 8]],
    tops: &mut [u16],
    tally: &mut Tally,
) -> usize
    requires lattice { places.now.lattice ≡ Lattice.Height }
    requires layer { k < places.now.view.d }
    requires high { k < 1024 }
    requires some { 0 < length columns.now }
    requires columns { All (IsColumn places.now.view (length tops.old)) columns.now }
    requires room { length list.now ≤ length values.old }
    ensures some { 0 < result }
    ensures few { result ≤ length columns.now }
    ensures tops { Changes (stand_at (take result columns.now))
        (layer_top places.now.view list.now k) tops.old tops.new }
    ensures counted { RisesBy tally.old tally.new (points_of (result * length list.now)) }
{
    if columns.len() >= 8 {
        draw_columns::<8>(places, k, &columns[..8], list, values, tops, tally);
        8
    } else if columns.len() >= 4 {
        draw_columns::<4>(places, k, &columns[..4], list, values, tops, tally);
        4
    } else if columns.len() >= 2 {
        draw_columns::<2>(places, k, &columns[..2], list, values, tops, tally);
        2
    } else {
        draw_columns::<1>(places, k, &columns[..1], list, values, tops, tally);
        1
    }
}

// Draws L columns side by side.
fn draw_columns<const L: usize>(
    places: &Places,
    k: u32,
    columns: &[Column],
    list: &Steps<'_>,
    values: &mut [[Fx; 8]],
    tops: &mut [u16],
    tally: &mut Tally,
)
    requires lanes { L ≤ 8 }
    requires many { length columns.now ≡ L }
    requires lattice { places.now.lattice ≡ Lattice.Height }
    requires layer { k < places.now.view.d }
    requires high { k < 1024 }
    requires columns { All (IsColumn places.now.view (length tops.old)) columns.now }
    requires room { length list.now ≤ length values.old }
    ensures tops { Changes (stand_at columns.now) (layer_top places.now.view list.now k)
        tops.old tops.new }
    ensures counted { RisesBy tally.old tally.new (points_of (L * length list.now)) }
{
    let inputs = gather::<L>(places, k, columns);
    let row = evaluate_lanes::<L>(list, &inputs, values, tally);
    for lane in 0..L {
        if is_inside(row[lane]) {
            tops[columns[lane].place] = k as u16 + 1;
        }
    }
}

// The points of the samples of L columns in layer k, each in its lane.
#[inline]
fn gather<const L: usize>(places: &Places, k: u32, columns: &[Column]) -> Inputs<[Fx; 8]>
    requires lanes { L ≤ 8 }
    requires many { length columns.now ≡ L }
    requires lattice { places.now.lattice ≡ Lattice.Height }
    requires layer { k < places.now.view.d }
    requires columns { (n : ℕ) → n < L → (nth columns.now n).i < places.now.view.w }
    requires rows { (n : ℕ) → n < L → (nth columns.now n).j < places.now.view.h }
    ensures { (lane : ℕ) → lane < L → point_in lane result
        ≡ point_at places.now.view k (nth columns.now lane) }
{
    let z = [places.z(k); 8];
    let mut x = z;
    let mut y = z;
    for lane in 0..L {
        let column = columns[lane];
        x[lane] = places.x(column.i);
        y[lane] = places.y(column.j);
    }
    Inputs { x, y, z }
}
