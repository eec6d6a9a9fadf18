// What always holds of the definitions that the contracts cite.
ghost use Rattle.interval_ops.specs.Laws.{HullCountsAdd, HullCountsJoin, HullHolds, HullsAreSpans, OnlyHullHolds, StandingCountsNoHull};

/// The hull that is made from the ends of two spans is the one that all results on their values
/// lie in and both of whose ends are such results. Nothing else is, and it is a span.
#[inline]
pub fn hulls()
    ensures hold { HullHolds }
    ensures only { OnlyHullHolds }
    ensures spans { HullsAreSpans }
{}

/// Hulls that are counted one after another, or apart and then joined to a tally, are counted
/// together. A tally that stands counts none.
#[inline]
pub fn hull_counts()
    ensures none { StandingCountsNoHull }
    ensures add { HullCountsAdd }
    ensures join { HullCountsJoin }
{}
