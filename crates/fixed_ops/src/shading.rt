// How light a surface is by its slopes.
ghost use Rattle.std.specs.Prelude.{◌≡◌, ◌*◌, ◌/◌, ◌+◌, ◌^◌, ◌<◌, ◌≤◌};
ghost use Rattle.fixed_ops.specs.Slopes.{light_of};

use crate::Fx;

/// The light on a surface with these slopes, seen from straight above: 255 where it lies flat or
/// has no slope at all, 1 where it stands upright, and between them by the share of the slope along
/// z in all three, rounded down.
#[inline]
pub fn light(dx: Fx, dy: Fx, dz: Fx) -> u8
    ensures { result ≡ light_of dx dy dz }
{
    let along = dz.raw().unsigned_abs();
    let total = dx.raw().unsigned_abs() + dy.raw().unsigned_abs() + along;
    if total == 0 {
        255
    } else {
        1 + share(along, total)
    }
}

// How much of the whole a part is, in parts of 254, rounded down.
#[inline]
fn share(part: u64, whole: u64) -> u8
    requires positive { 0 < whole }
    requires part { part ≤ whole }
    ensures value { result ≡ 254 * part / whole }
    ensures most { result ≤ 254 }
{
    if whole < 1 << 56 {
        (254 * part / whole) as u8
    } else {
        great_share(part, whole)
    }
}

// The same, where the product may not fit 64 bits. It is apart, since few slopes are so great.
#[cold]
#[inline(never)]
fn great_share(part: u64, whole: u64) -> u8
    requires positive { 0 < whole }
    requires part { part ≤ whole }
    ensures { result ≡ 254 * part / whole }
{
    (254 * u128::from(part) / u128::from(whole)) as u8
}
