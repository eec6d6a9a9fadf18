// Where a solid is decided.
ghost use Rattle.std.specs.Prelude.{◌≡◌, ◌↔◌, ◌<ℤ◌, ◌≤ℤ◌, pos, true, false, Some, None};
ghost use Rattle.interval_ops.specs.Decided.{decided_of};

use crate::Span;
use fixed_ops::is_inside;

/// Whether a box whose values have this range is all inside the solid (true) or all outside it
/// (false). It is None exactly where the lower end is below 0 and the upper end is not.
#[inline]
pub fn decided(s: Span) -> Option<bool>
    ensures value { result ≡ decided_of s }
    ensures inside { (result ≡ Some true) ↔ (s.hi <ℤ pos 0) }
    ensures outside { (result ≡ Some false) ↔ (pos 0 ≤ℤ s.lo) }
    ensures open { (result ≡ None) ↔ ((s.lo <ℤ pos 0) × (pos 0 ≤ℤ s.hi)) }
{
    if is_inside(s.hi()) {
        Some(true)
    } else if is_inside(s.lo()) {
        None
    } else {
        Some(false)
    }
}
