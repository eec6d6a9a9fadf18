// Where a surface cuts an edge.
ghost use Rattle.std.specs.Prelude.{◌≡◌, ◌*◌, ◌/◌, ◌^◌, ◌<◌, ◌≤◌, ◌≤ℤ◌, ◌<ℤ◌, pos};
ghost use Rattle.fixed_ops.specs.Cut.{cut_of};

use crate::Fx;

/// The way from the inside end of an edge to the cut, in parts of 65536 of the edge, from 1 to
/// 65535: where a value that changes evenly along the edge is 0, rounded down.
#[inline]
pub fn cut(inside: Fx, outside: Fx) -> u32
    requires inside { inside <ℤ pos 0 }
    requires outside { pos 0 ≤ℤ outside }
    ensures value { result ≡ cut_of inside outside }
    ensures least { 1 ≤ result }
    ensures most { result ≤ 65535 }
{
    let (depth, height) = (inside.raw().unsigned_abs(), outside.raw().unsigned_abs());
    share(depth, depth + height).clamp(1, 65535) as u32
}

// How much of the whole a part is, in parts of 65536, rounded down.
#[inline]
fn share(part: u64, whole: u64) -> u64
    requires positive { 0 < whole }
    requires part { part ≤ whole }
    ensures { result ≡ 65536 * part / whole }
{
    if part < 1 << 48 {
        (part << 16) / whole
    } else {
        ((u128::from(part) << 16) / u128::from(whole)) as u64
    }
}
