// What always holds of the definitions that the contracts cite.
ghost use Rattle.view_places.specs.Laws.{HalvesPart, RangesAreSpans, RangesHold};

/// Each sample of a box lies in exactly one of its halves, and no other sample lies in any.
pub fn halves_part()
    ensures { HalvesPart }
{}

/// The range of places along an axis has the least and the greatest place of its samples as its
/// ends, which are raw numbers in order.
pub fn ranges_hold()
    ensures ends { RangesHold }
    ensures spans { RangesAreSpans }
{}
