// What lists are evaluated over.
ghost use Rattle.std.specs.Prelude.{◌≡◌, ℤ};
ghost use Rattle.fixed_ops.specs.Counts.{Counts, RisesWithin, points_of, spans_of};
ghost use Rattle.choice_trace.specs.Meaning.{StandsForResults};
ghost use Rattle.interval_ops.specs.HullCounts.{hulls_of};
ghost use Rattle.interval_ops.specs.Hulls.{IsHull, between};
ghost use Rattle.interval_ops.specs.Spans.{Holds};

use fixed_ops::{Fx, Op, Tally};
use interval_ops::{Span, span_apply};

/// A domain of elements that stand for numbers, with what the operations make of them.
pub trait Domain: Copy {
    /// Whether an element stands for a number.
    ghost stands_for: { Self → ℤ → Type 0 };

    /// The least that applying an operation counts.
    ghost least: { Counts };

    /// The most that applying an operation counts.
    ghost most: { Counts };

    /// An element that stands for a number.
    fn constant(v: Fx) -> Self
        ensures { stands_for result v };

    /// What an operation makes of two elements. It stands for each of the operation's results on
    /// numbers that they stand for. A coordinate or a constant is handed in as `a`.
    fn apply(op: Op, a: Self, b: Self, tally: &mut Tally) -> Self
        ensures stands { StandsForResults stands_for op a b result }
        ensures counted { RisesWithin tally.old tally.new least most };
}

/// A number stands for itself alone. Each operation is one evaluation at a point.
impl Domain for Fx {
    ghost stands_for = { λ a v. a ≡ v };

    ghost least = { points_of 1 };

    ghost most = { points_of 1 };

    #[inline]
    fn constant(v: Fx) -> Fx {
        v
    }

    #[inline]
    fn apply(op: Op, a: Fx, b: Fx, tally: &mut Tally) -> Fx {
        fixed_ops::apply(op, a, b, tally)
    }
}

/// A range stands for each number in it. Each operation is one hull of at most four corners.
impl Domain for Span {
    ghost stands_for = { Holds };

    ghost least = { spans_of 1 };

    ghost most = { hulls_of 1 4 };

    /// The range of a number alone.
    #[inline]
    fn constant(v: Fx) -> Span
        ensures stands { Holds result v }
        ensures alone { result ≡ between v v }
    {
        Span::new(v, v)
    }

    /// No range within the answer holds all those results.
    #[inline]
    fn apply(op: Op, a: Span, b: Span, tally: &mut Tally) -> Span
        ensures stands { StandsForResults Holds op a b result }
        ensures hull { IsHull op a b result }
        ensures counted { RisesWithin tally.old tally.new (spans_of 1) (hulls_of 1 4) }
    {
        // The ends of a range are in order.
        let _ends = (a.lo(), b.lo());
        span_apply(op, a, b, tally)
    }
}
