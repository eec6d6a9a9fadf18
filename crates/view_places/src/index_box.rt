// Boxes of samples, and their halves.
ghost use Rattle.std.specs.Prelude.{◌≡◌, ◌+◌, ◌-◌, ◌<◌, ◌≤◌, ◌++◌, nat_lt, Some, None, if◌then◌else◌};
ghost use Rattle.std.specs.List.{flat_map};
ghost use Rattle.arrayvec.specs.ArrayVec.{array_vec_len};
ghost use Rattle.view_places.specs.Boxes.{halves_of, halves_x, halves_y, middle as middle_of};

use arrayvec::ArrayVec;
use std::marker::Model;

/// A box of samples: a range of indices along each axis, the lower end included and the upper not.
/// Each side has an index.
#[derive(Clone, Copy, Debug, PartialEq, Eq)]
pub struct IndexBox {
    /// The lower end along x.
    pub x0: u32,
    /// The upper end along x.
    pub x1: u32,
    /// The lower end along y.
    pub y0: u32,
    /// The upper end along y.
    pub y1: u32,
    /// The lower end along z.
    pub z0: u32,
    /// The upper end along z.
    pub z1: u32,
}

impl Model for IndexBox {
    ghost use Rattle.view_places.specs.Boxes.{Indices, IsBox};

    ghost Value = { Indices };

    ghost view = { λ b. record {
      x0 = b.x0;
      x1 = b.x1;
      y0 = b.y0;
      y1 = b.y1;
      z0 = b.z0;
      z1 = b.z1;
    } };

    ghost invariant = { λ b. IsBox (record {
      x0 = b.x0;
      x1 = b.x1;
      y0 = b.y0;
      y1 = b.y1;
      z0 = b.z0;
      z1 = b.z1;
    }) };

    ghost inverse = { λ b. record {
      x0 = b.x0;
      x1 = b.x1;
      y0 = b.y0;
      y1 = b.y1;
      z0 = b.z0;
      z1 = b.z1;
    } };
}

impl Default for IndexBox {
    ghost use Rattle.view_places.specs.Boxes.{one_sample};

    ghost is_default = { λ b. b ≡ one_sample };

    /// The box of the one index 0 on each axis.
    fn default() -> IndexBox {
        IndexBox {
            x0: 0,
            x1: 1,
            y0: 0,
            y1: 1,
            z0: 0,
            z1: 1,
        }
    }
}

/// The halves of a box, by z, then by y, then by x, the lower ones first: each side that is longer
/// than `leaf` is halved, and the lower half has the odd index. It is the box alone where no side is
/// longer.
#[inline]
pub fn split(b: IndexBox, leaf: u32) -> ArrayVec<IndexBox, 8>
    requires { 0 < leaf }
    ensures { result.items ≡ halves_of leaf b }
{
    let mut halves = ArrayVec::new();
    match middle(b.z0, b.z1, leaf) {
        Some(z) => {
            push_by_rows(IndexBox { z1: z, ..b }, leaf, &mut halves);
            push_by_rows(IndexBox { z0: z, ..b }, leaf, &mut halves);
        }
        None => push_by_rows(b, leaf, &mut halves),
    }
    halves
}

// Adds the halves of a box by y, then by x.
#[inline]
fn push_by_rows(b: IndexBox, leaf: u32, halves: &mut ArrayVec<IndexBox, 8>)
    requires leaf { 0 < leaf }
    requires room { array_vec_len halves.old ≤ 4 }
    ensures halves { let parts = flat_map (halves_x leaf) (halves_y leaf b) in
        halves.new.items ≡ halves.old.items ++ parts }
    ensures len { array_vec_len halves.new ≤ array_vec_len halves.old + 4 }
{
    match middle(b.y0, b.y1, leaf) {
        Some(y) => {
            push_by_columns(IndexBox { y1: y, ..b }, leaf, halves);
            push_by_columns(IndexBox { y0: y, ..b }, leaf, halves);
        }
        None => push_by_columns(b, leaf, halves),
    }
}

// Adds the halves of a box by x.
#[inline]
fn push_by_columns(b: IndexBox, leaf: u32, halves: &mut ArrayVec<IndexBox, 8>)
    requires leaf { 0 < leaf }
    requires room { array_vec_len halves.old ≤ 6 }
    ensures halves { halves.new.items ≡ halves.old.items ++ halves_x leaf b }
    ensures len { array_vec_len halves.new ≤ array_vec_len halves.old + 2 }
{
    match middle(b.x0, b.x1, leaf) {
        Some(x) => {
            halves.push(IndexBox { x1: x, ..b });
            halves.push(IndexBox { x0: x, ..b });
        }
        None => halves.push(b),
    }
}

// Where the upper half of a side begins, and None where the side is not longer than a leaf's.
#[inline]
fn middle(low: u32, high: u32, leaf: u32) -> Option<u32>
    requires some { low < high }
    requires leaf { 0 < leaf }
    ensures { result ≡ (if nat_lt leaf (high - low) then Some (middle_of low high) else None) }
{
    let len = high - low;
    if len > leaf {
        Some(high - len / 2)
    } else {
        None
    }
}
