// Boxes of cells that are looked into.
ghost use Rattle.std.specs.Prelude.{◌≡◌, ◌≢◌, ◌*◌, ◌+◌, ◌<◌, ◌≤◌, ℕ, IfNone, IfOk, IfSome, None, OnErr, OnOk, IsTrue, Some, drop, false, is_some, length, reverse, take, true, if◌then◌else◌};
ghost use Rattle.std.specs.List.{All};
ghost use Rattle.box_chains.specs.Chains.{is_long as is_long_for, visit};
ghost use Rattle.box_chains.specs.Desks.{HasMore, list_of, samples};
ghost use Rattle.box_chains.specs.Outcomes.{HandsOn, all_seen, asked_outcomes};
ghost use Rattle.box_chains.specs.Tallied.{CountsAtMost};
ghost use Rattle.interval_ops.specs.HullCounts.{CountsHulls};
ghost use Rattle.kuhn_cells.specs.Triangles.{GridPoint, point};
ghost use Rattle.kuhn_cells.specs.Sizes.{SameSize};
ghost use Rattle.live_clauses.specs.Live.{IsWhole};
ghost use Rattle.view_places.specs.Boxes.{IsBox, halves_of};
ghost use Rattle.view_places.specs.Spans.{IsInRoot};
ghost use Rattle.box_chains.specs.Redrawn.{IsNew};
ghost use Rattle.oct_descent.specs.Adding.{Adds};
ghost use Rattle.oct_descent.specs.After.{long_spans_after, received_half};
ghost use Rattle.oct_descent.specs.AfterDesks.{AreWorkedAfter, ChargesBelowAfter, ChargesBoxAfter, ChargesHalvesAfter, PaysBoxAfter, PaysHalvesAfter, halves_long_spans_after, long_spans_below_after};
ghost use Rattle.oct_descent.specs.Bound.{CountsHullsAtLeast, CountsNoHull};
ghost use Rattle.oct_descent.specs.Corners.{IsSeen, IsShown};
ghost use Rattle.oct_descent.specs.Asked.{IsToldAt, asked_of, longer};
ghost use Rattle.oct_descent.specs.Halves.{AreTurned, MayLook};
ghost use Rattle.oct_descent.specs.Kinds.{known_of, mesh};
ghost use Rattle.oct_descent.specs.Known.{AreSettled, AreWorked, ChargesBox, Grows, PaysBox};
ghost use Rattle.oct_descent.specs.GridValues.{list_grid_value};
ghost use Rattle.oct_descent.specs.KeptBoxes.{halves_places, places_of, split_places};
ghost use Rattle.oct_descent.specs.OldBoxes.{AreOldHalves, IsOldBox, behind, behind_halves, first_count, handed_by, received_by, visit_before};
ghost use Rattle.view_places.specs.Window.{size_of};
ghost use Rattle.oct_descent.specs.Tables.{PointValues};
ghost use Rattle.oct_descent.specs.Taking.{TakesOver, TakesPart};
ghost use Rattle.oct_descent.specs.Ways.{gridded, is_open as is_open_for, is_open_by, meets_border as meets_border_of};

use crate::boxes::Boxes;
use crate::corner_values::seen;
use crate::filling::fill_cell;
use crate::grid_values::GridValues;
use crate::old_box::OldBox;
use crate::old_boxes::OldBoxes;
use crate::seen::Seen;
use arrayvec::ArrayVec;
use box_chains::{AskedBox, Desk, Outcome, is_long};
use fixed_ops::Tally;
use kuhn_cells::GridSize;
use live_clauses::{Steps, Tape};
use std::alloc::AllocError;
use view_places::{IndexBox, split};

/// The longest side of a box that is not split.
const LEAF: u32 = 1;

/// Looks into a box, which receives a list, after a grid that may have had it with another one: evaluates
/// the corners of its working cells that are not known, and adds what is kept of the box. What is known
/// of boxes that receive the same list as before is taken over.
pub fn look_into(
    desk: &mut Desk,
    b: IndexBox,
    before: Option<OldBox<'_>>,
    received: usize,
    boxes: &mut Boxes,
    values: &mut GridValues,
    tally: &mut Tally,
) -> Result<(), AllocError>
    requires may { MayLook mesh desk.old b received (known_of values.old) }
    requires old { IfSome before (IsOldBox desk.old.view b boxes.old.before) }
    requires new { IsNew (visit_before before b) (visit b (list_of desk.old received)) }
    ensures adds { OnOk result (Adds boxes.old boxes.new
        (places_of (gridded desk.old.view) (visit b (list_of desk.old received)))) }
    ensures left { OnOk result (boxes.new.before
        ≡ behind (gridded desk.old.view) (visit_before before.entry b) boxes.old.before) }
    ensures settled { OnOk result
        (AreSettled (gridded desk.old.view) (list_grid_value desk.old.view (list_of desk.old received)) b
        (known_of values.new)) }
    ensures worked { OnOk result
        (AreWorkedAfter (gridded desk.old.view) (visit_before before.entry b)
        (visit b (list_of desk.old received)) (known_of values.new)) }
    ensures grows { Grows (list_grid_value desk.old.view (list_of desk.old received)) b (known_of values.old)
        (known_of values.new) }
    ensures counted { ChargesBoxAfter (gridded desk.old.view) (visit_before before.entry b)
        (visit b (list_of desk.old received)) (known_of values.old) (known_of values.new) tally.old tally.new }
    ensures paid { PaysBoxAfter (gridded desk.old.view) (visit_before before.entry b)
        (visit b (list_of desk.old received)) (known_of values.old) (known_of values.new) tally.old tally.new }
    ensures traced { OnOk result
        (CountsHullsAtLeast
        (long_spans_after (gridded desk.old.view) (visit_before before.entry b)
        (visit b (list_of desk.old received))) tally.old tally.new) }
    ensures more { HasMore desk.old desk.new }
{
    if !is_long(b, LEAF) {
        return look_into_cell(desk, b, received, values, tally);
    }
    let asked = asked_box(values.n(), b);
    let told = desk.trace_asked_box(received, asked, tally)?;
    look_into_told(desk, b, before, received, &[told], 0, boxes, values, tally)
}

// Looks into a box. What tracing the list over it told, where it is longer than a cell, stands at a
// place among some outcomes.
#[cycle(looking)]
fn look_into_told(
    desk: &mut Desk,
    b: IndexBox,
    before: Option<OldBox<'_>>,
    received: usize,
    outcomes: &[Outcome<usize>],
    at: usize,
    boxes: &mut Boxes,
    values: &mut GridValues,
    tally: &mut Tally,
) -> Result<(), AllocError>
    requires may { MayLook mesh desk.old b received (known_of values.old) }
    requires told { IsToldAt mesh (samples desk.old) (list_of desk.old received) b desk.old.lists
        outcomes.now at }
    requires old { IfSome before (IsOldBox desk.old.view b boxes.old.before) }
    requires new { IsNew (visit_before before b) (visit b (list_of desk.old received)) }
    ensures adds { OnOk result (Adds boxes.old boxes.new
        (places_of (gridded desk.old.view) (visit b (list_of desk.old received)))) }
    ensures left { OnOk result (boxes.new.before
        ≡ behind (gridded desk.old.view) (visit_before before.entry b) boxes.old.before) }
    ensures settled { OnOk result
        (AreSettled (gridded desk.old.view) (list_grid_value desk.old.view (list_of desk.old received)) b
        (known_of values.new)) }
    ensures worked { OnOk result
        (AreWorkedAfter (gridded desk.old.view) (visit_before before.entry b)
        (visit b (list_of desk.old received)) (known_of values.new)) }
    ensures grows { Grows (list_grid_value desk.old.view (list_of desk.old received)) b (known_of values.old)
        (known_of values.new) }
    ensures counted { ChargesBelowAfter (gridded desk.old.view) (visit_before before.entry b)
        (visit b (list_of desk.old received)) (known_of values.old) (known_of values.new) tally.old tally.new }
    ensures paid { PaysBoxAfter (gridded desk.old.view) (visit_before before.entry b)
        (visit b (list_of desk.old received)) (known_of values.old) (known_of values.new) tally.old tally.new }
    ensures traced { OnOk result
        (CountsHullsAtLeast
        (long_spans_below_after (gridded desk.old.view) (visit_before before.entry b)
        (visit b (list_of desk.old received))) tally.old tally.new) }
    ensures kept { desk.new ≡ desk.old }
{
    if !is_long(b, LEAF) {
        return look_into_cell(desk, b, received, values, tally);
    }
    match &outcomes[at] {
        Outcome::Open(live) => look_into_split(desk, b, before, *live, boxes, values, tally),
        Outcome::Inside | Outcome::Outside => boxes.push_shut(before.is_some()),
    }
}

// Looks into a box that is split and hands on a list: takes over what is known of it, where it handed
// on the same list before.
#[cycle(looking)]
fn look_into_split(
    desk: &mut Desk,
    b: IndexBox,
    before: Option<OldBox<'_>>,
    live: usize,
    boxes: &mut Boxes,
    values: &mut GridValues,
    tally: &mut Tally,
) -> Result<(), AllocError>
    requires may { MayLook mesh desk.old b live (known_of values.old) }
    requires whole { IsWhole (list_of desk.old live) }
    requires long { IsTrue (is_long_for 1 b) }
    requires old { IfSome before (IsOldBox desk.old.view b boxes.old.before) }
    ensures adds { OnOk result (Adds boxes.old boxes.new
        (split_places (gridded desk.old.view) b (list_of desk.old live))) }
    ensures left { OnOk result (boxes.new.before
        ≡ behind (gridded desk.old.view) (visit_before before.entry b) boxes.old.before) }
    ensures settled { OnOk result
        (AreSettled (gridded desk.old.view) (list_grid_value desk.old.view (list_of desk.old live)) b
        (known_of values.new)) }
    ensures worked { OnOk result
        (All (λ half. AreWorkedAfter (gridded desk.old.view) (received_half (handed_by before.entry boxes.old.before) half)
        (visit half (list_of desk.old live)) (known_of values.new)) (halves_of 1 b)) }
    ensures grows { Grows (list_grid_value desk.old.view (list_of desk.old live)) b (known_of values.old)
        (known_of values.new) }
    ensures counted { ChargesHalvesAfter (gridded desk.old.view)
        (handed_by before.entry boxes.old.before) (list_of desk.old live) (halves_of 1 b) (known_of values.old)
        (known_of values.new) tally.old tally.new }
    ensures paid { PaysHalvesAfter (gridded desk.old.view) (handed_by before.entry boxes.old.before)
        (list_of desk.old live) (halves_of 1 b) (known_of values.old) (known_of values.new) tally.old
        tally.new }
    ensures traced { OnOk result
        (CountsHullsAtLeast (halves_long_spans_after (gridded desk.old.view)
        (handed_by before.entry boxes.old.before) (list_of desk.old live) (halves_of 1 b)) tally.old
        tally.new) }
    ensures kept { desk.new ≡ desk.old }
{
    match unchanged(before, &boxes.before, &desk.lists.list(live)) {
        Some(old) => take_old(old, b, boxes, values),
        None => look_into_anew(desk, b, before, live, boxes, values, tally),
    }
}

// The box before, where it handed on these steps to its halves.
#[inline]
fn unchanged<'a>(
    before: Option<OldBox<'a>>,
    left: &OldBoxes,
    list: &Steps<'_>,
) -> Option<OldBox<'a>>
    ensures same { IfSome result (λ old. handed_by (Some old) left.now ≡ Some list.now) }
    ensures one { IfSome result (λ old. before.entry ≡ Some old) }
    ensures other { IfNone result (handed_by before.entry left.now ≢ Some list.now) }
{
    match before {
        Some(old) if left.next_is(list) => Some(old),
        _ => None,
    }
}

// Takes over what the grid before had below a box, and what it knew of the points of the box.
// AllocError: there is no memory for it, and some of that may be taken over.
fn take_old(
    old: OldBox<'_>,
    b: IndexBox,
    boxes: &mut Boxes,
    values: &mut GridValues,
) -> Result<(), AllocError>
    requires count { first_count boxes.old.before ≤ length boxes.old.before }
    requires n { SameSize old.values.now.n values.old.n }
    requires x { b.x1 ≤ values.old.n.x }
    requires y { b.y1 ≤ values.old.n.y }
    requires z { b.z1 ≤ values.old.n.z }
    ensures adds { OnOk result (Adds boxes.old boxes.new
        (take (first_count boxes.old.before) boxes.old.before)) }
    ensures left { OnOk result (boxes.new.before
        ≡ drop (first_count boxes.old.before) boxes.old.before) }
    ensures part { TakesPart b old.entry.values.now values.old values.new }
    ensures all { OnOk result (TakesOver b old.entry.values.now values.old values.new) }
{
    boxes.push_old()?;
    values.take_over(old.values, b)
}

// Looks into a box that is split and hands on another list than before.
#[cycle(looking)]
fn look_into_anew(
    desk: &mut Desk,
    b: IndexBox,
    before: Option<OldBox<'_>>,
    live: usize,
    boxes: &mut Boxes,
    values: &mut GridValues,
    tally: &mut Tally,
) -> Result<(), AllocError>
    requires may { MayLook mesh desk.old b live (known_of values.old) }
    requires whole { IsWhole (list_of desk.old live) }
    requires long { IsTrue (is_long_for 1 b) }
    requires old { IfSome before (IsOldBox desk.old.view b boxes.old.before) }
    requires new { handed_by before boxes.old.before ≢ Some (list_of desk.old live) }
    ensures adds { OnOk result (Adds boxes.old boxes.new
        (split_places (gridded desk.old.view) b (list_of desk.old live))) }
    ensures left { OnOk result (boxes.new.before
        ≡ behind (gridded desk.old.view) (visit_before before.entry b) boxes.old.before) }
    ensures settled { OnOk result
        (AreSettled (gridded desk.old.view) (list_grid_value desk.old.view (list_of desk.old live)) b
        (known_of values.new)) }
    ensures worked { OnOk result
        (All (λ half. AreWorkedAfter (gridded desk.old.view) (received_half (handed_by before.entry boxes.old.before) half)
        (visit half (list_of desk.old live)) (known_of values.new)) (halves_of 1 b)) }
    ensures grows { Grows (list_grid_value desk.old.view (list_of desk.old live)) b (known_of values.old)
        (known_of values.new) }
    ensures counted { ChargesHalvesAfter (gridded desk.old.view)
        (handed_by before.entry boxes.old.before) (list_of desk.old live) (halves_of 1 b) (known_of values.old)
        (known_of values.new) tally.old tally.new }
    ensures paid { PaysHalvesAfter (gridded desk.old.view) (handed_by before.entry boxes.old.before)
        (list_of desk.old live) (halves_of 1 b) (known_of values.old) (known_of values.new) tally.old
        tally.new }
    ensures traced { OnOk result
        (CountsHullsAtLeast (halves_long_spans_after (gridded desk.old.view)
        (handed_by before.entry boxes.old.before) (list_of desk.old live) (halves_of 1 b)) tally.old
        tally.new) }
    ensures kept { desk.new ≡ desk.old }
{
    let handed = take_handed(before, &mut boxes.before);
    let begun = boxes.begin_split(&desk.lists, live)?;
    let half = half_before(before, &handed);
    look_into_halves(desk, b, half, live, boxes, values, tally)?;
    boxes.end_split(begun);
    Ok(())
}

// Takes the list that a box before handed on to its halves, where there was one and it had some.
#[inline]
fn take_handed(before: Option<OldBox<'_>>, left: &mut OldBoxes) -> Option<Tape>
    ensures list { result ≡ handed_by before.entry left.old }
    ensures left { left.new ≡ (if is_some before.entry then drop 1 left.old else left.old) }
{
    match before {
        Some(_) => left.take_next(),
        None => None,
    }
}

// A half of a box before, which handed on this list, where it had some.
#[inline]
fn half_before<'a>(before: Option<OldBox<'a>>, handed: &'a Option<Tape>) -> Option<OldBox<'a>>
    requires { IfNone before (handed.now ≡ None) }
    ensures received { received_by result ≡ handed.now }
    ensures values { IfSome result (λ half. IfSome before.entry (λ old. half.values.now
        ≡ old.values.now)) }
{
    match (before, handed) {
        (Some(old), Some(list)) => Some(old.half(list)),
        _ => None,
    }
}

// Looks into the halves of a box that is split, after those of the grid before. The lists that they
// hand on are given up then.
#[cycle(looking)]
fn look_into_halves(
    desk: &mut Desk,
    b: IndexBox,
    half: Option<OldBox<'_>>,
    live: usize,
    boxes: &mut Boxes,
    values: &mut GridValues,
    tally: &mut Tally,
) -> Result<(), AllocError>
    requires may { MayLook mesh desk.old b live (known_of values.old) }
    requires whole { IsWhole (list_of desk.old live) }
    requires long { IsTrue (is_long_for 1 b) }
    requires old { IfSome half (AreOldHalves desk.old.view b (halves_of 1 b) boxes.old.before) }
    requires new { received_by half ≢ Some (list_of desk.old live) }
    ensures adds { OnOk result (Adds boxes.old boxes.new
        (halves_places (gridded desk.old.view) (list_of desk.old live) (halves_of 1 b))) }
    ensures left { OnOk result (boxes.new.before ≡ behind_halves (gridded desk.old.view)
        (received_by half.entry) (halves_of 1 b) boxes.old.before) }
    ensures settled { OnOk result
        (AreSettled (gridded desk.old.view) (list_grid_value desk.old.view (list_of desk.old live)) b
        (known_of values.new)) }
    ensures worked { OnOk result
        (All (λ part. AreWorkedAfter (gridded desk.old.view) (received_half (received_by half.entry) part)
        (visit part (list_of desk.old live)) (known_of values.new)) (halves_of 1 b)) }
    ensures grows { Grows (list_grid_value desk.old.view (list_of desk.old live)) b (known_of values.old)
        (known_of values.new) }
    ensures counted { ChargesHalvesAfter (gridded desk.old.view) (received_by half.entry)
        (list_of desk.old live) (halves_of 1 b) (known_of values.old) (known_of values.new) tally.old tally.new }
    ensures paid { PaysHalvesAfter (gridded desk.old.view) (received_by half.entry)
        (list_of desk.old live) (halves_of 1 b) (known_of values.old) (known_of values.new) tally.old
        tally.new }
    ensures traced { OnOk result
        (CountsHullsAtLeast (halves_long_spans_after (gridded desk.old.view)
        (received_by half.entry) (list_of desk.old live) (halves_of 1 b)) tally.old tally.new) }
    ensures kept { desk.new ≡ desk.old }
{
    let count = desk.lists.len();
    let looked = look_into_each_half(desk, b, half, live, boxes, values, tally);
    desk.cut(count);
    looked
}

// Looks into the halves of a box that is split: those longer than a cell are traced together, and
// then all are looked into one by one. The lists that they hand on stay behind the others.
#[cycle(looking)]
fn look_into_each_half(
    desk: &mut Desk,
    b: IndexBox,
    before: Option<OldBox<'_>>,
    live: usize,
    boxes: &mut Boxes,
    values: &mut GridValues,
    tally: &mut Tally,
) -> Result<(), AllocError>
    requires may { MayLook mesh desk.old b live (known_of values.old) }
    requires whole { IsWhole (list_of desk.old live) }
    requires long { IsTrue (is_long_for 1 b) }
    requires old { IfSome before (AreOldHalves desk.old.view b (halves_of 1 b) boxes.old.before) }
    requires new { received_by before ≢ Some (list_of desk.old live) }
    ensures adds { OnOk result (Adds boxes.old boxes.new
        (halves_places (gridded desk.old.view) (list_of desk.old live) (halves_of 1 b))) }
    ensures left { OnOk result (boxes.new.before ≡ behind_halves (gridded desk.old.view)
        (received_by before.entry) (halves_of 1 b) boxes.old.before) }
    ensures settled { OnOk result
        (AreSettled (gridded desk.old.view) (list_grid_value desk.old.view (list_of desk.old live)) b
        (known_of values.new)) }
    ensures worked { OnOk result
        (All (λ half. AreWorkedAfter (gridded desk.old.view) (received_half (received_by before.entry) half)
        (visit half (list_of desk.old live)) (known_of values.new)) (halves_of 1 b)) }
    ensures grows { Grows (list_grid_value desk.old.view (list_of desk.old live)) b (known_of values.old)
        (known_of values.new) }
    ensures counted { ChargesHalvesAfter (gridded desk.old.view) (received_by before.entry)
        (list_of desk.old live) (halves_of 1 b) (known_of values.old) (known_of values.new) tally.old tally.new }
    ensures paid { PaysHalvesAfter (gridded desk.old.view) (received_by before.entry)
        (list_of desk.old live) (halves_of 1 b) (known_of values.old) (known_of values.new) tally.old
        tally.new }
    ensures traced { OnOk result
        (CountsHullsAtLeast (halves_long_spans_after (gridded desk.old.view)
        (received_by before.entry) (list_of desk.old live) (halves_of 1 b)) tally.old tally.new) }
    ensures more { HasMore desk.old desk.new }
{
    let halves = in_turn(b);
    let outcomes = trace_longer(desk, halves.as_slice(), live, values.n(), tally)?;
    let outcomes = outcomes.as_slice();
    let mut at = 0;
    for half in halves.as_slice() {
        look_into_told(
            desk, *half, before, live, outcomes, at, boxes, values, tally,
        )?;
        at += usize::from(is_long(*half, LEAF));
    }
    Ok(())
}

// The halves of a box in the order in which they are looked into. Those that are cells come last first: the
// last one has most of the corners that are not known, so that they are evaluated side by side, and the
// others are seldom traced then.
#[inline]
fn in_turn(b: IndexBox) -> ArrayVec<IndexBox, 8>
    ensures { IsBox b → AreTurned b result.items }
{
    let halves = split(b, LEAF);
    if is_long(b, 2 * LEAF) {
        halves
    } else {
        last_first(halves.as_slice())
    }
}

// Some boxes from the last one to the first.
#[inline]
fn last_first(boxes: &[IndexBox]) -> ArrayVec<IndexBox, 8>
    requires { length boxes.now ≤ 8 }
    ensures { result.items ≡ reverse boxes.now }
{
    let mut turned = ArrayVec::new();
    for at in (0..boxes.len()).rev() {
        turned.push(boxes[at]);
    }
    turned
}

// What tracing a list tells over those of some boxes that are longer than a cell. AllocError: there
// is no memory for a shorter list, and no more was traced than that.
#[inline]
fn trace_longer(
    desk: &mut Desk,
    boxes: &[IndexBox],
    received: usize,
    n: GridSize,
    tally: &mut Tally,
) -> Result<ArrayVec<Outcome<usize>, 8>, AllocError>
    requires among { received < length desk.old.lists }
    requires whole { IsWhole (list_of desk.old received) }
    requires room { length (list_of desk.old received) ≤ desk.old.room }
    requires few { length boxes.now ≤ 8 }
    requires within { All (IsInRoot desk.old.view desk.old.lattice) boxes.now }
    ensures outcomes { IfOk result (λ outcomes. all_seen desk.new.lists outcomes.items
        ≡ asked_outcomes (samples desk.old) (list_of desk.old received) (longer mesh n boxes.now)) }
    ensures hand { IfOk result (λ outcomes.
        All (HandsOn (length (list_of desk.old received)) desk.new.lists) outcomes.items) }
    ensures counted { OnOk result
        (CountsHulls (length (longer mesh n boxes.now) * length (list_of desk.old received))
        tally.old tally.new) }
    ensures at_most { OnErr result
        (CountsAtMost 0 (length (longer mesh n boxes.now) * length (list_of desk.old received))
        tally.old tally.new) }
    ensures more { HasMore desk.old desk.new }
{
    let asked = longer_boxes(n, boxes);
    desk.trace_asked_boxes(received, asked.as_slice(), tally)
}

// Those of some boxes that are longer than a cell.
#[inline]
fn longer_boxes(n: GridSize, boxes: &[IndexBox]) -> ArrayVec<AskedBox, 8>
    requires { length boxes.now ≤ 8 }
    ensures items { result.items ≡ longer mesh n boxes.now }
{
    let mut asked = ArrayVec::new();
    for b in boxes {
        if is_long(*b, LEAF) {
            asked.push(asked_box(n, *b));
        }
    }
    asked
}

// A box that is held open where it covers a point of the outermost layer.
#[inline]
fn asked_box(n: GridSize, b: IndexBox) -> AskedBox
    ensures { result ≡ asked_of mesh n b }
{
    AskedBox {
        range: b,
        held: meets_border(n, b),
    }
}

// Looks into a cell. Nothing is traced where its known corners show how it lies.
#[inline(always)]
fn look_into_cell(
    desk: &mut Desk,
    b: IndexBox,
    received: usize,
    values: &mut GridValues,
    tally: &mut Tally,
) -> Result<(), AllocError>
    requires may { MayLook mesh desk.old b received (known_of values.old) }
    requires one { is_long_for 1 b ≡ false }
    ensures settled { OnOk result
        (AreSettled (gridded desk.old.view) (list_grid_value desk.old.view (list_of desk.old received)) b
        (known_of values.new)) }
    ensures worked { OnOk result
        (AreWorked (gridded desk.old.view) (visit b (list_of desk.old received)) (known_of values.new)) }
    ensures grows { Grows (list_grid_value desk.old.view (list_of desk.old received)) b (known_of values.old)
        (known_of values.new) }
    ensures counted { ChargesBox (gridded desk.old.view) (visit b (list_of desk.old received))
        (known_of values.old) (known_of values.new) tally.old tally.new }
    ensures paid { PaysBox (gridded desk.old.view) (visit b (list_of desk.old received)) (known_of values.old)
        (known_of values.new) tally.old tally.new }
    ensures untraced { IsShown values.old (point b.x0 b.y0 b.z0)
        → CountsNoHull tally.old tally.new }
    ensures kept { desk.new ≡ desk.old }
{
    let n = values.n();
    let seen = seen(values, b.x0, b.y0, b.z0);
    if seen.all {
        return Ok(());
    }
    if !is_working(desk, b, received, n, seen, tally) {
        return Ok(());
    }
    fill_cell(desk, b, received, values, tally)
}

// Whether a cell is a working one, by what its known corners show. Nothing is traced where they lie
// on both sides.
#[inline]
fn is_working(
    desk: &mut Desk,
    b: IndexBox,
    received: usize,
    n: GridSize,
    seen: Seen,
    tally: &mut Tally,
) -> bool
    requires may { (t : PointValues) × MayLook mesh desk.old b received (known_of t) × IsSeen t
        (point b.x0 b.y0 b.z0) seen }
    requires one { is_long_for 1 b ≡ false }
    requires n { SameSize n (size_of desk.old.view) }
    ensures open { result
        ≡ is_open_for (gridded desk.old.view) (visit b (list_of desk.old received)) }
    ensures counted { CountsAtMost 0 (length (list_of desk.old received)) tally.old tally.new }
    ensures untraced { IsTrue seen.inside → IsTrue seen.outside → tally.new ≡ tally.old }
    ensures kept { desk.new ≡ desk.old }
{
    if seen.inside && seen.outside {
        return true;
    }
    let told = desk.look_apart(received, b, tally);
    is_open(told, n, b)
}

// Whether a box stays open, by what a look told.
#[inline]
fn is_open(told: Option<bool>, n: GridSize, b: IndexBox) -> bool
    ensures { result ≡ is_open_by (meets_border_of n) b told }
{
    match told {
        None => true,
        Some(true) => meets_border(n, b),
        Some(false) => false,
    }
}

// Whether a box covers a point of the outermost layer.
#[inline]
fn meets_border(n: GridSize, b: IndexBox) -> bool
    ensures { result ≡ meets_border_of n b }
{
    b.x0 == 0 || b.x1 == n.x || b.y0 == 0 || b.y1 == n.y || b.z0 == 0 || b.z1 == n.z
}
