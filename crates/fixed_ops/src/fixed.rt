// A number of the modeller.
ghost use Rattle.std.specs.Prelude.{◌≡◌, ◌≤ℤ◌, ◌<ℤ◌, ◌↔◌, IsTrue, pos};
ghost use Rattle.std.specs.Int.{int_max};
ghost use Rattle.fixed_ops.specs.Raw.{IsRaw, IsInside, is_inside};

use std::marker::Model;

/// A number v / 2^32, which contracts see as its raw number v. It is at most 2^62 - 1 on either
/// side of 0.
#[derive(Clone, Copy, Debug, PartialEq, Eq)]
pub struct Fx {
    raw: i64,
}

impl Model for Fx {
    ghost use Rattle.std.specs.Prelude.{ℤ};
    ghost use Rattle.fixed_ops.specs.Raw.{IsRaw};

    ghost Value = { ℤ };

    ghost view = { λ f. f.raw };

    ghost invariant = { λ f. IsRaw f.raw };

    ghost inverse = { λ v. record { raw = v } };
}

impl Fx {
    /// The greatest raw number.
    pub const MAX_RAW: i64 = (1 << 62) - 1;

    /// The number with this raw number, of 2^-32.
    #[inline]
    pub fn from_raw(v: i64) -> Fx
        requires { IsRaw v }
        ensures { result ≡ v }
    {
        Fx { raw: v }
    }

    // The raw number.
    #[inline]
    pub(crate) fn raw(self) -> i64
        ensures raw { result ≡ self }
        ensures within { IsRaw result }
    {
        self.raw
    }
}

/// A number lies in the range of raw numbers. The call does nothing when it runs.
#[inline]
pub fn raw_range(a: Fx)
    ensures { IsRaw a }
{
    let _raw = a.raw();
}

/// Whether a point with this value is inside the solid. The value 0 is outside.
#[inline]
pub fn is_inside(a: Fx) -> bool
    ensures value { result ≡ is_inside a }
    ensures inside { IsTrue result ↔ IsInside a }
{
    a.raw() < 0
}

/// The greater of a number and 0, which is outside wherever a border closes a solid.
#[inline]
pub fn border(a: Fx) -> Fx
    ensures { result ≡ int_max a (pos 0) }
{
    Fx::from_raw(a.raw().max(0))
}

/// Whether a is at most b.
#[inline]
pub fn le(a: Fx, b: Fx) -> bool
    ensures { IsTrue result ↔ (a ≤ℤ b) }
{
    a.raw() <= b.raw()
}

/// Whether a is less than b.
#[inline]
pub fn lt(a: Fx, b: Fx) -> bool
    ensures { IsTrue result ↔ (a <ℤ b) }
{
    a.raw() < b.raw()
}
