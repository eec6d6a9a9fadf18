// Ranges of numbers.
ghost use Rattle.std.specs.Prelude.{◌≡◌, ◌≤ℤ◌};
ghost use Rattle.interval_ops.specs.Spans.{IsSpan};

use fixed_ops::Fx;
use std::marker::Model;

/// A range of numbers, both ends included, which contracts see as its lower and its upper end.
#[derive(Clone, Copy, Debug, PartialEq, Eq)]
pub struct Span {
    lo: Fx,
    hi: Fx,
}

impl Model for Span {
    ghost use Rattle.interval_ops.specs.Spans.{Interval, IsSpan};

    ghost Value = { Interval };

    ghost view = { λ s. record { lo = s.lo; hi = s.hi } };

    ghost invariant = { λ s. IsSpan (record { lo = s.lo; hi = s.hi }) };

    ghost inverse = { λ v. record { lo = v.lo; hi = v.hi } };
}

impl Span {
    /// The range from `lo` to `hi`.
    #[inline]
    pub fn new(lo: Fx, hi: Fx) -> Span
        requires { lo ≤ℤ hi }
        ensures { result ≡ record { lo = lo; hi = hi } }
    {
        Span { lo, hi }
    }

    /// The lower end.
    #[inline]
    pub fn lo(&self) -> Fx
        ensures end { result ≡ self.now.lo }
        ensures span { IsSpan self.now }
    {
        self.lo
    }

    /// The upper end.
    #[inline]
    pub fn hi(&self) -> Fx
        ensures end { result ≡ self.now.hi }
        ensures span { IsSpan self.now }
    {
        self.hi
    }
}
