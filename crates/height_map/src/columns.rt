// The tops of the columns of a box.
ghost use Rattle.std.specs.Prelude.{◌≡◌, ◌+◌, ◌*◌, ◌<◌, ◌≤◌, ℕ, true, false, length, get_or};
ghost use Rattle.height_map.specs.Columns.{Changes, HasOpen, IsAmong, covers, lifted};

use view_places::IndexBox;

/// Whether each column of a box has a top. A row of the map has w columns.
pub fn is_covered(w: u32, b: IndexBox, tops: &[u16]) -> bool
    requires { IsAmong w (length tops.now) b }
    ensures covered { (p : ℕ) → result ≡ true → p < length tops.now → covers w b p ≡ true
        → 0 < get_or tops.now p 0 }
    ensures open { result ≡ false → HasOpen w b tops.now }
{
    for j in b.y0..b.y1 {
        if !is_row_covered(w, b, j, tops) {
            return false;
        }
    }
    true
}

// Whether each column of row j of a box has a top.
#[inline]
fn is_row_covered(w: u32, b: IndexBox, j: u32, tops: &[u16]) -> bool
    requires among { IsAmong w (length tops.now) b }
    requires row { j < b.y1 }
    ensures covered { (i : ℕ) → result ≡ true → b.x0 ≤ i → i < b.x1
        → 0 < get_or tops.now (j * w + i) 0 }
    ensures open { result ≡ false
        → (i : ℕ) × (b.x0 ≤ i) × (i < b.x1) × (get_or tops.now (j * w + i) 0 ≡ 0) }
{
    let start = j as usize * w as usize;
    for i in b.x0..b.x1 {
        if tops[start + i as usize] == 0 {
            return false;
        }
    }
    true
}

/// Gives each column of a box that has no top a top right above the box, as all of it is inside.
pub fn lift(w: u32, b: IndexBox, tops: &mut [u16])
    requires among { IsAmong w (length tops.old) b }
    requires high { b.z1 ≤ 1024 }
    ensures { Changes (covers w b) (λ p. lifted b.z1) tops.old tops.new }
{
    for j in b.y0..b.y1 {
        lift_row(w, b, j, tops);
    }
}

// Gives each column of row j of a box that has no top one.
#[inline]
fn lift_row(w: u32, b: IndexBox, j: u32, tops: &mut [u16])
    requires among { IsAmong w (length tops.old) b }
    requires row { j < b.y1 }
    requires high { b.z1 ≤ 1024 }
    ensures { Changes (covers w (record b { y0 = j; y1 = j + 1 })) (λ p. lifted b.z1) tops.old
        tops.new }
{
    let start = j as usize * w as usize;
    for i in b.x0..b.x1 {
        let at = start + i as usize;
        if tops[at] == 0 {
            tops[at] = b.z1 as u16;
        }
    }
}
