// Which boxes are traced and split, and the children of a box in the order in which they are visited.
ghost use Rattle.std.specs.Prelude.{◌≡◌, ◌≤◌, ◌<◌, true, false, length, map, reverse, get_or};
ghost use Rattle.std.specs.List.{filter};
ghost use Rattle.box_chains.specs.Desks.{Tracing};
ghost use Rattle.box_descent.specs.Founds.{child_tape, found_of};
ghost use Rattle.box_descent.specs.Looked.{looked};
ghost use Rattle.box_descent.specs.Plans.{asked, children, group_size, is_backwards, is_traced, meets};
ghost use Rattle.box_descent.specs.declared.found.Found.TheVariants.{Untraced};
ghost use Rattle.view_places.specs.Boxes.{halves_of};
ghost use Rattle.view_places.specs.Spans.{root_box_of};

use crate::{Border, Found, Order, Plan};
use arrayvec::ArrayVec;
use box_chains::{AskedBox, Desk, Outcome, TracedBox, is_long};
use view_places::{IndexBox, split};

/// Whether a box is traced with those beside it.
#[inline]
pub(crate) fn is_traced(plan: Plan, b: IndexBox) -> bool
    ensures { result ≡ is_traced plan b }
{
    plan.traces_leaves || is_long(b, plan.leaf)
}

// Whether a box has a part in the layer that counts as outside.
#[inline]
fn meets_border(border: Border, root: IndexBox, b: IndexBox) -> bool
    ensures { result ≡ meets border root b }
{
    let x = b.x0 == root.x0 || b.x1 == root.x1;
    let y = b.y0 == root.y0 || b.y1 == root.y1;
    let z = b.z0 == root.z0 || b.z1 == root.z1;
    match border {
        Border::Nowhere => false,
        Border::Plane => x || y,
        Border::Solid => x || y || z,
    }
}

/// Those of some boxes that are traced, as they are.
#[inline]
pub(crate) fn asked_among(plan: Plan, desk: &Desk, boxes: &[IndexBox]) -> ArrayVec<AskedBox, 8>
    requires { length boxes.now ≤ 8 }
    ensures { result.items ≡ map (asked plan (looked plan desk.now)) (filter (is_traced plan) boxes.now) }
{
    let root = desk.root();
    let mut asked = ArrayVec::new();
    for n in 0..boxes.len() {
        let b = boxes[n];
        if is_traced(plan, b) {
            let held = plan.prunes_inside || meets_border(plan.border, root, b);
            asked.push(AskedBox { range: b, held });
        }
    }
    asked
}

/// What is found of a box that was given a tape. Where it was traced, what that told stands at a place
/// among some boxes.
#[inline]
pub(crate) fn found_at(
    plan: Plan,
    b: IndexBox,
    given: usize,
    traced: &[TracedBox],
    at: usize,
) -> Found
    requires { is_traced plan b ≡ true → at < length traced.now }
    ensures untraced { is_traced plan b ≡ false → result ≡ Untraced }
    ensures traced { (t : TracedBox) → is_traced plan b ≡ true → t ≡ get_or traced.now at t
        → result ≡ found_of given t }
{
    if !is_traced(plan, b) {
        return Found::Untraced;
    }
    found_of(given, traced[at])
}

// What is found of a box that was traced.
#[inline]
fn found_of(given: usize, traced: TracedBox) -> Found
    ensures { result ≡ found_of given traced }
{
    match traced.outcome {
        Outcome::Open(pruned) if traced.decision.is_none() => Found::Ambiguous(pruned),
        Outcome::Open(pruned) => Found::Inside(pruned),
        Outcome::Inside => Found::Inside(given),
        Outcome::Outside => Found::Outside,
    }
}

/// The tape that the children of a box are given, where it has children to be visited.
#[inline]
pub(crate) fn child_tape(plan: Plan, desk: &Desk, b: IndexBox, found: Found) -> Option<usize>
    ensures { result ≡ child_tape plan desk.now b found }
{
    if !is_long(b, plan.leaf) {
        return None;
    }
    match found {
        Found::Ambiguous(pruned) => Some(pruned),
        Found::Inside(tape) if meets_border(plan.border, desk.root(), b) => Some(tape),
        _ => None,
    }
}

/// The children of a box, in the order in which they are visited.
#[inline]
pub(crate) fn children(plan: Plan, b: IndexBox) -> ArrayVec<IndexBox, 8>
    requires some { 0 < plan.leaf }
    requires small { plan.leaf ≤ 4096 }
    ensures { result.items ≡ children plan b }
{
    let mut children = split(b, plan.leaf);
    if is_backwards(plan, b) {
        children.as_mut_slice().reverse();
    }
    children
}

// Whether they are visited from the last to the first.
#[inline]
fn is_backwards(plan: Plan, b: IndexBox) -> bool
    requires { plan.leaf ≤ 4096 }
    ensures { result ≡ is_backwards plan b }
{
    match plan.order {
        Order::Ascending => false,
        Order::NearestFirst => true,
        Order::LastLeafFirst => !is_long(b, 2 * plan.leaf),
    }
}

/// How many of the children of a box, of which there are so many, are visited before the visitor is
/// asked which of the others it wants.
#[inline]
pub(crate) fn group_size(plan: Plan, b: IndexBox, count: usize) -> usize
    requires { count ≡ length (halves_of plan.leaf b) }
    ensures size { result ≡ group_size plan b }
    ensures few { result ≤ count }
{
    if plan.order == Order::NearestFirst && b.z1 - b.z0 > plan.leaf {
        count / 2
    } else {
        count
    }
}
