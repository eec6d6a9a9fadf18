// Boxes that a visitor wants.
ghost use Rattle.std.specs.Prelude.{◌≡◌, ◌≤◌, length};
ghost use Rattle.std.specs.List.{All, filter};
ghost use Rattle.box_descent.specs.Looked.{IsPlaced, looked};

use crate::visitor::Visitor;
use arrayvec::ArrayVec;
use box_chains::Desk;
use view_places::IndexBox;

/// Those of some boxes that a visitor wants.
#[inline]
pub(crate) fn wanted_among<V: Visitor>(
    desk: &Desk,
    boxes: &[IndexBox],
    visitor: &V,
) -> ArrayVec<IndexBox, 8>
    requires few { length boxes.now ≤ 8 }
    requires placed { All (IsPlaced desk.now) boxes.now }
    requires ready { V.meaning.ready (looked V.meaning.plan desk.now) visitor.now }
    ensures { result.items ≡ filter (V.meaning.wanted (looked V.meaning.plan desk.now) visitor.now) boxes.now }
{
    let mut kept = ArrayVec::new();
    for n in 0..boxes.len() {
        let b = boxes[n];
        if visitor.wants(desk, b) {
            kept.push(b);
        }
    }
    kept
}
