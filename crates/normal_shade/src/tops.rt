// Boxes in which columns have their top samples.
ghost use Rattle.std.specs.Prelude.{◌≡◌, ◌<◌, ◌≤◌, length, nat_lt};
ghost use Rattle.std.specs.List.{All, filter};
ghost use Rattle.box_chains.specs.Tested.{has_some};
ghost use Rattle.height_map.specs.Columns.{IsAmong};
ghost use Rattle.normal_shade.specs.Marks.{is_marked, is_within, tops_along};

use view_places::IndexBox;

/// Whether some column has its top sample in a box. A row of the map has w columns.
pub fn has_top(w: u32, b: IndexBox, tops: &[u16]) -> bool
    requires { IsAmong w (length tops.now) b }
    ensures { result ≡ has_some (is_marked w tops.now) b }
{
    for j in b.y0..b.y1 {
        if has_top_in_row(w, b, j, tops) {
            return true;
        }
    }
    false
}

// Whether some column of row j of a box has its top sample there.
#[inline]
fn has_top_in_row(w: u32, b: IndexBox, j: u32, tops: &[u16]) -> bool
    requires among { IsAmong w (length tops.now) b }
    requires row { j < b.y1 }
    ensures { result ≡ nat_lt 0 (tops_along w tops.now b j b.x0 b.x1) }
{
    let start = j as usize * w as usize;
    for i in b.x0..b.x1 {
        if is_within(b, tops[start + i as usize]) {
            return true;
        }
    }
    false
}

/// Whether the top sample of a column that has this top lies in the layers of a box.
#[inline]
pub fn is_within(b: IndexBox, top: u16) -> bool
    ensures { result ≡ is_within b top }
{
    let top = u32::from(top);
    b.z0 < top && top <= b.z1
}
