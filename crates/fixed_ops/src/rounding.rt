// Sums, products and whole numbers, rounded down and brought into the range of raw numbers.
ghost use Rattle.std.specs.Prelude.{◌≡◌, ◌^◌, ◌*ℤ◌};
ghost use Rattle.fixed_ops.specs.Floor.{IsFloor};
ghost use Rattle.fixed_ops.specs.Operations.{product_of, whole_of};
ghost use Rattle.fixed_ops.specs.Raw.{IsRaw, clamp, floor_div};

use crate::Fx;

// The raw number nearest to v.
#[inline]
pub(crate) fn clamped(v: i64) -> i64
    ensures value { result ≡ clamp v }
    ensures raw { IsRaw result }
{
    if -Fx::MAX_RAW <= v && v <= Fx::MAX_RAW {
        v
    } else {
        nearest_end(v)
    }
}

// The raw number nearest to a number out of range. It is apart, since few numbers come here.
#[cold]
#[inline(never)]
fn nearest_end(v: i64) -> i64
    ensures value { result ≡ clamp v }
    ensures raw { IsRaw result }
{
    v.clamp(-Fx::MAX_RAW, Fx::MAX_RAW)
}

// The greatest whole number that is not above a raw number, clamped.
#[inline]
pub(crate) fn whole(a: i64) -> i64
    ensures value { result ≡ whole_of a }
    ensures raw { IsRaw result }
{
    clamped((a >> 32) * ONE)
}

// The raw number of 1.
const ONE: i64 = 1 << 32;

// The product of two raw numbers, rounded down and clamped.
#[inline]
pub(crate) fn product(a: i64, b: i64) -> i64
    ensures value { result ≡ product_of a b }
    ensures raw { IsRaw result }
{
    rounded(exact_product(a, b))
}

// The product of two raw numbers, in units of 2^-64.
#[inline]
fn exact_product(a: i64, b: i64) -> i128
    ensures { result ≡ a *ℤ b }
{
    i128::from(a) * i128::from(b)
}

// The raw number nearest to the whole number of 2^-32 below a whole number of 2^-64. The high word
// tells at once that nearly all numbers are in range.
#[inline]
fn rounded(v: i128) -> i64
    ensures value { result ≡ clamp (floor_div v (2 ^ 32)) }
    ensures raw { IsRaw result }
{
    let high = high_word(v);
    if -(1 << 30) < high && high < 1 << 30 {
        floored(v) as i64
    } else {
        nearest_end_wide(floored(v))
    }
}

// The high 64 bits of v.
#[inline]
#[tactic(auto, using(crate::proofs::RoundingLaws::floor_div_is_floor))]
fn high_word(v: i128) -> i64
    ensures { IsFloor v (2 ^ 64) result }
{
    (v >> 64) as i64
}

// The whole number of 2^-32 below a whole number of 2^-64.
#[inline]
#[tactic(auto, using(crate::proofs::RoundingLaws::floor_div_is_floor))]
fn floored(v: i128) -> i128
    ensures value { result ≡ floor_div v (2 ^ 32) }
    ensures floor { IsFloor v (2 ^ 32) result }
{
    v >> 32
}

// The raw number nearest to a number that may be out of range. It is apart, since few numbers come
// here.
#[cold]
#[inline(never)]
fn nearest_end_wide(v: i128) -> i64
    ensures value { result ≡ clamp v }
    ensures raw { IsRaw result }
{
    v.clamp(-i128::from(Fx::MAX_RAW), i128::from(Fx::MAX_RAW)) as i64
}
