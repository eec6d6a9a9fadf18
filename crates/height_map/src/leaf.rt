// Leaves, drawn layer by layer, the nearest one first.
ghost use Rattle.std.specs.Prelude.{◌≡◌, ◌+◌, ◌-◌, ◌<◌, ◌≤◌, ◌++◌, length};
ghost use Rattle.std.specs.List.{All};
ghost use Rattle.arrayvec.specs.ArrayVec.{array_vec_len};
ghost use Rattle.box_chains.specs.Sums.{sum_in};
ghost use Rattle.fixed_ops.specs.Counts.{RisesBy, points_of};
ghost use Rattle.height_map.specs.Columns.{Changes, IsLeafOf, covers, leaf_cost, leaf_top};
ghost use Rattle.height_map.specs.Layers.{columns_in, columns_of as columns_for, open_among};

use crate::column::Column;
use crate::layer::draw_layer;
use arrayvec::ArrayVec;
use box_chains::Places;
use fixed_ops::{Fx, Tally};
use live_clauses::Steps;
use view_places::IndexBox;

/// Gives each column of a leaf that has no top the one that the samples of the leaf give it. One
/// evaluation of the list is counted for each of these samples from the nearest on, up to the first
/// that is inside.
pub fn draw_leaf(
    places: &Places,
    w: u32,
    b: IndexBox,
    list: &Steps<'_>,
    values: &mut [[Fx; 8]],
    tops: &mut [u16],
    tally: &mut Tally,
)
    requires leaf { IsLeafOf places.now w b (length tops.old) }
    requires narrow { b.x1 - b.x0 ≤ 8 }
    requires low { b.y1 - b.y0 ≤ 8 }
    requires room { length list.now ≤ length values.old }
    ensures tops { Changes (covers w b) (leaf_top places.now.view list.now b) tops.old tops.new }
    ensures counted { RisesBy tally.old tally.new
        (points_of (sum_in b (leaf_cost places.now.view list.now b tops.old))) }
{
    let mut columns = columns_of(w, b);
    for k in (b.z0..b.z1).rev() {
        keep_open(&mut columns, tops);
        draw_layer(places, k, &columns, list, values, tops, tally);
    }
}

// The columns of a leaf, row by row.
fn columns_of(w: u32, b: IndexBox) -> ArrayVec<Column, 64>
    requires few { w ≤ 4096 }
    requires narrow { b.x1 - b.x0 ≤ 8 }
    requires low { b.y1 - b.y0 ≤ 8 }
    ensures { result.items ≡ columns_for w b }
{
    let mut columns = ArrayVec::new();
    for j in b.y0..b.y1 {
        push_row(w, b, j, &mut columns);
    }
    columns
}

// Adds the columns of a leaf in row j, of which there are at most eight.
#[inline]
fn push_row(w: u32, b: IndexBox, j: u32, columns: &mut ArrayVec<Column, 64>)
    requires few { w ≤ 4096 }
    requires narrow { b.x1 - b.x0 ≤ 8 }
    requires room { array_vec_len columns.old + 8 ≤ 64 }
    ensures items { columns.new.items ≡ columns.old.items ++ columns_in w b j }
    ensures len { array_vec_len columns.new ≤ array_vec_len columns.old + 8 }
{
    let start = j as usize * w as usize;
    for i in b.x0..b.x1 {
        columns.push(Column {
            i,
            j,
            place: start + i as usize,
        });
    }
}

// Drops those columns that have a top.
fn keep_open(columns: &mut ArrayVec<Column, 64>, tops: &[u16])
    requires { All (λ column. column.place < length tops.now) columns.old.items }
    ensures { columns.new.items ≡ open_among tops.now columns.old.items }
{
    let mut kept = 0;
    for n in 0..columns.len() {
        let column = columns[n];
        if tops[column.place] == 0 {
            columns[kept] = column;
            kept += 1;
        }
    }
    columns.truncate(kept);
}
