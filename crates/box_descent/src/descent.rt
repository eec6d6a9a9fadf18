// The boxes of a descent, from a box down to those that are not split.
ghost use Rattle.std.specs.Prelude.{◌≡◌, ◌≤◌, List, ◌∷◌, Some, None, true, length, OnErr, OnOk};
ghost use Rattle.std.specs.List.{All, filter};
ghost use Rattle.box_chains.specs.Chains.{handed_on, visit};
ghost use Rattle.box_chains.specs.Desks.{HasMore, list_of};
ghost use Rattle.box_descent.specs.Founds.{GivesTape, IsFound};
ghost use Rattle.box_descent.specs.Looked.{CanTrace, IsPlaced, MayVisit, looked};
ghost use Rattle.box_descent.specs.Plans.{goes_on};
ghost use Rattle.box_descent.specs.Runs.{Group, Stops};
ghost use Rattle.box_descent.specs.VisitorLaws.{VisitsAreLawful};
ghost use Rattle.live_clauses.specs.Live.{IsWhole};
ghost use Rattle.view_places.specs.Boxes.{Indices};

use crate::children::{asked_among, child_tape, children, found_at, group_size, is_traced};
use crate::wanted::wanted_among;
use crate::{Found, Visitor};
use box_chains::Desk;
use fixed_ops::Tally;
use std::alloc::AllocError;
use view_places::IndexBox;

/// Gives boxes a tape, by its number: those that the visitor wants are traced together, and visited one
/// after the other with all that is below them. Pruned tapes are given up then. AllocError: there is no
/// memory for one, or for what a visit takes, and what was done until then stands.
#[cycle(descent)]
pub fn descend<V: Visitor>(
    desk: &mut Desk,
    tape: usize,
    boxes: &[IndexBox],
    visitor: &mut V,
    tally: &mut Tally,
) -> Result<(), AllocError>
    requires laws { VisitsAreLawful V.meaning }
    requires placed { All (IsPlaced desk.old) boxes.now }
    requires traces { CanTrace desk.old tape (length boxes.now) }
    requires few { length boxes.now ≤ 8 }
    requires fit { V.meaning.fits (looked V.meaning.plan desk.old) visitor.old (list_of desk.old tape)
        (filter (V.meaning.wanted (looked V.meaning.plan desk.old) visitor.old) boxes.now) }
    ensures drawn { OnOk result (Group V.meaning (looked V.meaning.plan desk.old) (list_of desk.old tape)
        (filter (V.meaning.wanted (looked V.meaning.plan desk.old) visitor.old) boxes.now) visitor.old visitor.new
        (filter (V.meaning.wanted (looked V.meaning.plan desk.old) visitor.old) boxes.now) tally.old tally.new) }
    ensures halted { OnErr result (Stops V.meaning (looked V.meaning.plan desk.old)
        (list_of desk.old tape) (filter (V.meaning.wanted (looked V.meaning.plan desk.old) visitor.old) boxes.now) visitor.old
        visitor.new tally.old tally.new) }
    ensures kept { desk.new ≡ desk.old }
{
    let wanted = wanted_among(desk, boxes, visitor);
    let count = desk.lists.len();
    let done = visit_boxes(desk, tape, wanted.as_slice(), visitor, tally);
    desk.cut(count);
    done
}

// Traces boxes together, and visits them one after the other. The tapes that they prune stay behind the
// others.
#[cycle(descent)]
fn visit_boxes<V: Visitor>(
    desk: &mut Desk,
    tape: usize,
    boxes: &[IndexBox],
    visitor: &mut V,
    tally: &mut Tally,
) -> Result<(), AllocError>
    requires laws { VisitsAreLawful V.meaning }
    requires placed { All (IsPlaced desk.old) boxes.now }
    requires traces { CanTrace desk.old tape (length boxes.now) }
    requires few { length boxes.now ≤ 8 }
    requires fit { V.meaning.fits (looked V.meaning.plan desk.old) visitor.old (list_of desk.old tape)
        boxes.now }
    ensures drawn { OnOk result (Group V.meaning (looked V.meaning.plan desk.old) (list_of desk.old tape)
        boxes.now visitor.old visitor.new boxes.now tally.old tally.new) }
    ensures halted { OnErr result (Stops V.meaning (looked V.meaning.plan desk.old)
        (list_of desk.old tape) boxes.now visitor.old visitor.new tally.old tally.new) }
    ensures more { HasMore desk.old desk.new }
{
    let plan = visitor.plan();
    let asked = asked_among(plan, desk, boxes);
    let traced = desk.trace(tape, asked.as_slice(), tally)?;
    let traced = traced.as_slice();
    let mut at = 0;
    for n in 0..boxes.len() {
        let b = boxes[n];
        let found = found_at(plan, b, tape, traced, at);
        visit_box(desk, b, tape, found, visitor, tally)?;
        at += usize::from(is_traced(plan, b));
    }
    Ok(())
}

// Visits a box, and where it is split its children.
#[cycle(descent)]
fn visit_box<V: Visitor>(
    desk: &mut Desk,
    b: IndexBox,
    given: usize,
    found: Found,
    visitor: &mut V,
    tally: &mut Tally,
) -> Result<(), AllocError>
    requires laws { VisitsAreLawful V.meaning }
    requires may { MayVisit V.meaning.plan desk.old b given }
    requires found { IsFound V.meaning.plan desk.old b given found }
    requires next { (later : List Indices) × (V.meaning.fits (looked V.meaning.plan desk.old)
        visitor.old (list_of desk.old given) (b ∷ later)) }
    ensures drawn { OnOk result (V.meaning.draws (looked V.meaning.plan desk.old) visitor.old visitor.new
        (visit b (list_of desk.old given)) tally.old tally.new) }
    ensures halted { OnErr result (V.meaning.halts (looked V.meaning.plan desk.old) visitor.old
        visitor.new (visit b (list_of desk.old given)) tally.old tally.new) }
    ensures kept { desk.new ≡ desk.old }
{
    match child_tape(visitor.plan(), desk, b, found) {
        Some(pruned) => visit_children(desk, b, given, pruned, visitor, tally),
        None => visitor.visit(desk, b, given, found, tally),
    }
}

// Visits the children of a box that is split, one group after the other.
#[cycle(descent)]
fn visit_children<V: Visitor>(
    desk: &mut Desk,
    b: IndexBox,
    given: usize,
    pruned: usize,
    visitor: &mut V,
    tally: &mut Tally,
) -> Result<(), AllocError>
    requires laws { VisitsAreLawful V.meaning }
    requires may { MayVisit V.meaning.plan desk.old b given }
    requires pruned { GivesTape V.meaning.plan desk.old b pruned
        (handed_on (looked V.meaning.plan desk.old) (visit b (list_of desk.old given))) }
    requires whole { IsWhole (list_of desk.old pruned) }
    requires long { goes_on V.meaning.plan (looked V.meaning.plan desk.old)
        (visit b (list_of desk.old given)) ≡ true }
    requires next { (later : List Indices) × (V.meaning.fits (looked V.meaning.plan desk.old)
        visitor.old (list_of desk.old given) (b ∷ later)) }
    ensures drawn { OnOk result (V.meaning.draws (looked V.meaning.plan desk.old) visitor.old visitor.new
        (visit b (list_of desk.old given)) tally.old tally.new) }
    ensures halted { OnErr result (V.meaning.halts (looked V.meaning.plan desk.old) visitor.old
        visitor.new (visit b (list_of desk.old given)) tally.old tally.new) }
    ensures kept { desk.new ≡ desk.old }
{
    let Some(mark) = visitor.open(desk, b, given, pruned)? else {
        return Ok(());
    };
    let plan = visitor.plan();
    let children = children(plan, b);
    let children = children.as_slice();
    let first = group_size(plan, b, children.len());
    descend(desk, pruned, &children[..first], visitor, tally)?;
    descend(desk, pruned, &children[first..], visitor, tally)?;
    visitor.close(mark);
    Ok(())
}
