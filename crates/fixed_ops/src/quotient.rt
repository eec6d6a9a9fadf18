// Quotients of raw numbers.
ghost use Rattle.std.specs.Prelude.{◌≡◌, ◌+◌, ◌-◌, ◌*◌, ◌/◌, ◌^◌, ◌<◌, ◌≤◌, pos, min};
ghost use Rattle.fixed_ops.specs.Quotient.{over_zero, quotient_of};
ghost use Rattle.fixed_ops.specs.Raw.{IsRaw};

use crate::Fx;

// The quotient of two raw numbers, rounded down and clamped. It stays apart, as roots do.
#[inline(never)]
pub(crate) fn quotient(a: i64, b: i64) -> i64
    requires left { IsRaw a }
    requires right { IsRaw b }
    ensures value { result ≡ quotient_of a b }
    ensures raw { IsRaw result }
{
    let (dividend, divisor) = (a.unsigned_abs(), b.unsigned_abs());
    if divisor == 0 {
        quotient_by_zero(a)
    } else if (a < 0) == (b < 0) {
        rounded_down(dividend, divisor)
    } else {
        -rounded_up(dividend, divisor)
    }
}

// The greatest raw number with the sign of a, or 0.
#[cold]
fn quotient_by_zero(a: i64) -> i64
    ensures value { result ≡ over_zero a }
    ensures raw { IsRaw result }
{
    Fx::MAX_RAW * a.signum()
}

// n * 2^32 / d, rounded down and clamped.
#[inline]
fn rounded_down(n: u64, d: u64) -> i64
    requires dividend { n < 2 ^ 62 }
    requires positive { 0 < d }
    requires divisor { d < 2 ^ 62 }
    ensures { result ≡ pos (min (n * 2 ^ 32 / d) (2 ^ 62 - 1)) }
{
    clamped_size(floor_quotient(n, d))
}

// n * 2^32 / d, rounded up and clamped.
#[inline]
#[tactic(auto, using(crate::proofs::QuotientLaws::round_up_whole, crate::proofs::QuotientLaws::round_up_part, crate::proofs::QuotientLaws::round_up_great))]
fn rounded_up(n: u64, d: u64) -> i64
    requires dividend { n < 2 ^ 62 }
    requires positive { 0 < d }
    requires divisor { d < 2 ^ 62 }
    ensures { result ≡ pos (min ((n * 2 ^ 32 + (d - 1)) / d) (2 ^ 62 - 1)) }
{
    let below = floor_quotient(n, d);
    if u128::from(below) * u128::from(d) < u128::from(n) << 32 {
        clamped_size(below + 1)
    } else {
        clamped_size(below)
    }
}

// The raw number nearest to v.
#[inline]
fn clamped_size(v: u64) -> i64
    ensures { result ≡ pos (min v (2 ^ 62 - 1)) }
{
    v.min(Fx::MAX_RAW as u64) as i64
}

// n * 2^32 / d, rounded down, or some number from 2^62 up where that is 2^62 or more.
#[inline]
#[tactic(auto, using(crate::proofs::QuotientLaws::whole_and_fraction))]
fn floor_quotient(n: u64, d: u64) -> u64
    requires dividend { n < 2 ^ 62 }
    requires positive { 0 < d }
    requires divisor { d < 2 ^ 62 }
    ensures below { n * 2 ^ 32 / d < 2 ^ 62 → result ≡ n * 2 ^ 32 / d }
    ensures above { 2 ^ 62 ≤ n * 2 ^ 32 / d → 2 ^ 62 ≤ result }
    ensures bound { result < 2 ^ 64 - 1 }
{
    if n < 1 << 32 {
        return (n << 32) / d;
    }
    let whole = n / d;
    if whole < 1 << 30 {
        (whole << 32) + fraction(n % d, d)
    } else {
        1 << 62
    }
}

// r * 2^32 / d, rounded down.
fn fraction(r: u64, d: u64) -> u64
    requires dividend { r < d }
    requires divisor { d < 2 ^ 62 }
    ensures value { result ≡ r * 2 ^ 32 / d }
    ensures bound { result < 2 ^ 32 }
{
    if d < 1 << 32 {
        return (r << 32) / d;
    }
    // The 32 leading bits of d give a quotient that is too great by at most 2.
    let shift = d.leading_zeros();
    let estimate = (r << shift) / ((d << shift) >> 32);
    lowered(estimate, r, d)
}

// r * 2^32 / d, rounded down, found from a number that is not less.
fn lowered(estimate: u64, r: u64, d: u64) -> u64
    requires divisor { 0 < d }
    requires estimate { r * 2 ^ 32 / d ≤ estimate }
    ensures { result ≡ r * 2 ^ 32 / d }
{
    let dividend = u128::from(r) << 32;
    let mut quotient = estimate;
    while u128::from(quotient) * u128::from(d) > dividend {
        quotient -= 1;
    }
    quotient
}
