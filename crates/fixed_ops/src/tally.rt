// The counts of the work done.
ghost use Rattle.std.specs.Prelude.{◌≡◌};
ghost use Rattle.fixed_ops.specs.Counts.{no_counts, points_of, spans_of, corners_of, RisesBy};

use std::marker::Model;

/// How much work was done: evaluations of a clause at points, hulls over boxes, and corners of
/// hulls. Each count stands still at 2^64 - 1.
#[derive(Debug, Drop)]
pub struct Tally {
    points: u64,
    spans: u64,
    corners: u64,
}

impl Model for Tally {
    ghost use Rattle.fixed_ops.specs.Counts.{Counts};

    ghost Value = { Counts };

    ghost view = { λ t. record { points = t.points; spans = t.spans; corners = t.corners } };
}

impl Tally {
    /// A tally of no work.
    pub fn new() -> Tally
        ensures { result ≡ no_counts }
    {
        Tally {
            points: 0,
            spans: 0,
            corners: 0,
        }
    }

    /// How often a clause was evaluated at a point.
    #[inline]
    pub fn points(&self) -> u64
        ensures { result ≡ self.now.points }
    {
        self.points
    }

    /// How often the hull of a clause over a box was found.
    #[inline]
    pub fn spans(&self) -> u64
        ensures { result ≡ self.now.spans }
    {
        self.spans
    }

    /// How many corners were evaluated for hulls.
    #[inline]
    pub fn corners(&self) -> u64
        ensures { result ≡ self.now.corners }
    {
        self.corners
    }

    /// Adds each count of another tally.
    pub fn join(&mut self, other: &Tally)
        ensures { RisesBy self.old self.new other.now }
    {
        self.points = self.points.saturating_add(other.points);
        self.spans = self.spans.saturating_add(other.spans);
        self.corners = self.corners.saturating_add(other.corners);
    }

    // One more evaluation at a point.
    #[inline]
    pub(crate) fn count_point(&mut self)
        ensures { RisesBy self.old self.new (points_of 1) }
    {
        self.points = self.points.saturating_add(1);
    }

    // One more corner of a hull.
    #[inline]
    pub(crate) fn count_corner(&mut self)
        ensures { RisesBy self.old self.new (corners_of 1) }
    {
        self.corners = self.corners.saturating_add(1);
    }
}

/// Counts one more hull over a box.
#[inline]
pub fn count_span(tally: &mut Tally)
    ensures { RisesBy tally.old tally.new (spans_of 1) }
{
    tally.spans = tally.spans.saturating_add(1);
}

/// Counts so many more evaluations at points.
#[inline]
pub fn count_points(tally: &mut Tally, count: u64)
    ensures { RisesBy tally.old tally.new (points_of count) }
{
    tally.points = tally.points.saturating_add(count);
}
