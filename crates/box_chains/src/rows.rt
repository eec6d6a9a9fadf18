// Rows for boxes that are traced at once.
ghost use Rattle.arrayvec.specs.ArrayVec.{array_vec_len};
ghost use Rattle.std.specs.List.{range_with_len};
ghost use Rattle.std.specs.Prelude.{◌≡◌, ◌+◌, ◌*◌, ◌<◌, ◌≤◌, ◌++◌, ℕ, true, false, List, None, length, map, take, IfOk, OnOk};
ghost use Rattle.choice_trace.specs.Halves.{flag_in};
ghost use Rattle.interval_ops.specs.Decided.{decided_of};
ghost use Rattle.interval_ops.specs.HullCounts.{CountsHulls};
ghost use Rattle.live_clauses.specs.Choices.{AreChoices, has_bit, lane};
ghost use Rattle.live_clauses.specs.Marks.{AreMarks};
ghost use Rattle.live_clauses.specs.Blocks.{list_at};
ghost use Rattle.live_clauses.specs.Live.{IsWhole, live_of};
ghost use Rattle.live_clauses.specs.Steps.{IsTape};
ghost use Rattle.live_clauses.specs.declared.step.Step.{Step};
ghost use Rattle.view_places.specs.Spans.{region_of};
ghost use Rattle.box_chains.specs.Outcomes.{AreFirst, AreInRoot, AreSeen, ChoosesNone, HandsOn, IsHandedOn, asked_decisions, asked_outcomes, decision_in, held_decision, is_shortened, lane_outcome, outcome_by, seen};
ghost use Rattle.box_chains.specs.declared.outcome.Outcome.{Outcome};

use crate::{AskedBox, Outcome, Places};
use arrayvec::ArrayVec;
use choice_trace::{Halves, trace_halves};
use fixed_ops::{Fx, Tally};
use interval_ops::{Region, Span, decided};
use live_clauses::{ChoiceRow, Lane, Lists, mark_lanes, with_bit};
use std::alloc::{AllocError, Global};
use std::marker::Model;

// The longest list that is traced over several boxes at once. The rows of a longer one take more time
// to fetch than is gained.
pub(crate) const LONGEST: usize = 32_768;

// A row of hulls and a row of choices for each step of a list, with a lane for each of up to four
// boxes, and memory to mark what is needed in each lane. Contracts see the rows of choices.
#[derive(Debug, Drop)]
pub(crate) struct Rows {
    hulls: Vec<[Span; 4]>,
    choices: Vec<ChoiceRow>,
    marks: Vec<u8>,
}

impl Model for Rows {
    ghost use Rattle.std.specs.Prelude.{◌≤◌, List, length};
    ghost use Rattle.live_clauses.specs.declared.choice_row.ChoiceRow.{ChoiceRow};

    ghost Value = { List ChoiceRow };

    ghost view = { λ r. r.choices.items };

    ghost invariant = { λ r. (length r.choices.items ≤ length r.hulls.items)
        × (length r.choices.items ≤ length r.marks.items) };
}

impl Rows {
    // No rows.
    pub(crate) fn new(alloc: Global) -> Rows {
        Rows {
            hulls: Vec::new(alloc),
            choices: Vec::new(alloc),
            marks: Vec::new(alloc),
        }
    }

    // Makes rows for a list of so many steps, where there are not as many yet. AllocError: there is no
    // memory for them.
    #[inline]
    pub(crate) fn make_room(&mut self, len: usize) -> Result<(), AllocError>
        ensures { OnOk result (len ≤ length self.new) }
    {
        if self.choices.len() < len {
            let zero = Span::new(Fx::from_raw(0), Fx::from_raw(0));
            self.hulls.resize(len, [zero; 4])?;
            self.marks.resize(len, 0)?;
            self.choices.resize(len, ChoiceRow::both())?;
        }
        Ok(())
    }

    // What tracing a list over L boxes at once tells of each, put behind some outcomes, and what the
    // hulls decide, put behind as many decisions. The list is given by its number, and so are those
    // that the boxes hand on.
    pub(crate) fn trace<const L: usize>(
        &mut self,
        lists: &mut Lists,
        at: usize,
        places: &Places,
        asked: &[AskedBox],
        outcomes: &mut ArrayVec<Outcome<usize>, 8>,
        decisions: &mut ArrayVec<Option<bool>, 8>,
        tally: &mut Tally,
    ) -> Result<(), AllocError>
        requires lanes { L ≤ 4 }
        requires boxes { length asked.now ≡ L }
        requires among { at < length lists.old }
        requires whole { IsWhole (list_at lists.old at) }
        requires room { length (list_at lists.old at) ≤ length self.old }
        requires few { array_vec_len outcomes.old + L ≤ 8 }
        requires as_many { array_vec_len decisions.old ≡ array_vec_len outcomes.old }
        requires within { AreInRoot places.now asked.now }
        ensures outcomes { OnOk result ((told : List (Outcome (List Step)))
            → AreSeen (length (list_at lists.old at)) lists.old outcomes.old.items told
            → AreSeen (length (list_at lists.old at)) lists.new outcomes.new.items
            (told ++ asked_outcomes places.now (list_at lists.old at) asked.now)) }
        ensures decisions { OnOk result (decisions.new.items ≡ decisions.old.items
            ++ asked_decisions places.now (list_at lists.old at) asked.now) }
        ensures first { AreFirst lists.old lists.new }
        ensures len { OnOk result (array_vec_len outcomes.new ≡ array_vec_len outcomes.old + L) }
        ensures room { length self.new ≡ length self.old }
        ensures counted { CountsHulls (L * length (list_at lists.old at)) tally.old tally.new }
    {
        let regions = regions_of::<L>(places, asked);
        let (rows, marks) = (self.choices.as_mut_slice(), self.marks.as_mut_slice());
        let halves = trace_halves(&lists.list(at), &regions, &mut self.hulls, rows, tally);
        mark_shortened(lists, at, asked, &halves, rows, marks);
        push_outcomes(lists, at, asked, &halves, rows, marks, outcomes, decisions)
    }
}

// The ranges of L boxes.
#[inline]
fn regions_of<const L: usize>(places: &Places, asked: &[AskedBox]) -> [Region; L]
    requires boxes { length asked.now ≡ L }
    requires within { AreInRoot places.now asked.now }
    ensures { result ≡ map (λ a. region_of places.now.view places.now.lattice a.range) asked.now }
{
    let zero = Span::new(Fx::from_raw(0), Fx::from_raw(0));
    let nowhere = Region {
        x: zero,
        y: zero,
        z: zero,
    };
    let mut regions = [nowhere; L];
    for l in 0..L {
        regions[l] = places.region(asked[l].range);
    }
    regions
}

// Marks the needed steps of a list, in the lane of each box that hands on a shorter one.
#[inline]
fn mark_shortened<const L: usize>(
    lists: &Lists,
    at: usize,
    asked: &[AskedBox],
    halves: &Halves<L>,
    rows: &[ChoiceRow],
    marks: &mut [u8],
)
    requires lanes { L ≤ 4 }
    requires boxes { length asked.now ≡ L }
    requires among { at < length lists.now }
    requires rows { length (list_at lists.now at) ≤ length rows.now }
    requires room { length (list_at lists.now at) ≤ length marks.old }
    requires only { (l : ℕ) → l < L → AreChoices (list_at lists.now at)
        (take (length (list_at lists.now at)) (lane l rows.now)) }
    ensures { (l : ℕ) → l < L
        → is_shortened asked.now halves.now.hulls halves.now.chosen l ≡ true
        → AreMarks l (list_at lists.now at)
        (take (length (list_at lists.now at)) (lane l rows.now)) marks.new }
{
    let lanes = shortened(asked, halves);
    if lanes != 0 {
        let list = lists.list(at);
        mark_lanes(&list, &rows[..list.len() as usize], lanes, marks);
    }
}

// The lanes of the boxes that hand on a shorter list: those that stay open, where some step chooses an
// operand.
#[inline]
fn shortened<const L: usize>(asked: &[AskedBox], halves: &Halves<L>) -> u8
    requires lanes { L ≤ 4 }
    requires boxes { length asked.now ≡ L }
    ensures within { (l : ℕ) → l < L
        → has_bit result l ≡ is_shortened asked.now halves.now.hulls halves.now.chosen l }
    ensures others { (l : ℕ) → L ≤ l → has_bit result l ≡ false }
{
    let mut lanes = 0;
    for l in 0..L {
        let told = held_open(decided(halves.hulls[l]), asked[l].held);
        lanes = with_bit(lanes, l, told.is_none() && halves.chosen[l]);
    }
    lanes
}

// Adds what the hulls of a list tell, each with the choices in its lane of the rows, and what they
// decide. AllocError: there is no memory for a shorter list.
#[inline]
fn push_outcomes<const L: usize>(
    lists: &mut Lists,
    at: usize,
    asked: &[AskedBox],
    halves: &Halves<L>,
    rows: &[ChoiceRow],
    marks: &[u8],
    outcomes: &mut ArrayVec<Outcome<usize>, 8>,
    decisions: &mut ArrayVec<Option<bool>, 8>,
) -> Result<(), AllocError>
    requires lanes { L ≤ 4 }
    requires marked { length (list_at lists.old at) ≤ length marks.now }
    requires marks { (l : ℕ) → l < L
        → is_shortened asked.now halves.now.hulls halves.now.chosen l ≡ true
        → AreMarks l (list_at lists.old at)
        (take (length (list_at lists.old at)) (lane l rows.now)) marks.now }
    requires among { at < length lists.old }
    requires tape { IsTape (list_at lists.old at) }
    requires whole { IsWhole (list_at lists.old at) }
    requires boxes { length asked.now ≡ L }
    requires chosen { (l : ℕ) → l < L → flag_in halves.now.chosen l ≡ false
        → ChoosesNone (take (length (list_at lists.old at)) (lane l rows.now)) }
    requires rows { length (list_at lists.old at) ≤ length rows.now }
    requires few { array_vec_len outcomes.old + L ≤ 8 }
    requires as_many { array_vec_len decisions.old ≡ array_vec_len outcomes.old }
    requires only { (l : ℕ) → l < L → AreChoices (list_at lists.old at)
        (take (length (list_at lists.old at)) (lane l rows.now)) }
    ensures outcomes { OnOk result ((told : List (Outcome (List Step)))
        → AreSeen (length (list_at lists.old at)) lists.old outcomes.old.items told
        → AreSeen (length (list_at lists.old at)) lists.new outcomes.new.items (told
        ++ map (lane_outcome (list_at lists.old at) asked.now halves.now.hulls rows.now)
        (range_with_len 0 L))) }
    ensures decisions { OnOk result (decisions.new.items
        ≡ decisions.old.items ++ map (decision_in halves.now.hulls) (range_with_len 0 L)) }
    ensures first { AreFirst lists.old lists.new }
    ensures len { OnOk result (array_vec_len outcomes.new ≡ array_vec_len outcomes.old + L) }
{
    for l in 0..L {
        let decision = decided(halves.hulls[l]);
        let told = held_open(decision, asked[l].held);
        let chosen = halves.chosen[l];
        let outcome = outcome_in_lane(lists, at, told, chosen, rows, marks, l)?;
        outcomes.push(outcome);
        decisions.push(decision);
    }
    Ok(())
}

// What is told of a box that may be held open, where its hull tells this.
#[inline]
pub(crate) fn held_open(told: Option<bool>, held: bool) -> Option<bool>
    ensures { result ≡ held_decision held told }
{
    if held && told == Some(true) {
        None
    } else {
        told
    }
}

// What is told of a box, with the choices in a lane of the rows, and whether there are any of an
// operand. AllocError: there is no memory for a shorter list.
#[inline]
fn outcome_in_lane(
    lists: &mut Lists,
    at: usize,
    told: Option<bool>,
    chosen: bool,
    rows: &[ChoiceRow],
    marks: &[u8],
    l: usize,
) -> Result<Outcome<usize>, AllocError>
    requires lane { l < 4 }
    requires marked { length (list_at lists.old at) ≤ length marks.now }
    requires marks { told ≡ None → chosen ≡ true → AreMarks l (list_at lists.old at)
        (take (length (list_at lists.old at)) (lane l rows.now)) marks.now }
    requires among { at < length lists.old }
    requires rows { length (list_at lists.old at) ≤ length rows.now }
    requires only { AreChoices (list_at lists.old at)
        (take (length (list_at lists.old at)) (lane l rows.now)) }
    requires tape { IsTape (list_at lists.old at) }
    requires whole { IsWhole (list_at lists.old at) }
    requires chosen { chosen ≡ false
        → ChoosesNone (take (length (list_at lists.old at)) (lane l rows.now)) }
    ensures outcome { IfOk result (λ outcome. seen lists.new outcome ≡ outcome_by told
        (live_of (list_at lists.old at) (take (length (list_at lists.old at)) (lane l rows.now)))) }
    ensures shorter { IfOk result (HandsOn (length (list_at lists.old at)) lists.new) }
    ensures first { AreFirst lists.old lists.new }
{
    match told {
        Some(true) => Ok(Outcome::Inside),
        Some(false) => Ok(Outcome::Outside),
        None => {
            let live = if chosen {
                hand_on_lane(lists, at, rows, marks, l)?
            } else {
                hand_on_whole(lists, at, rows, l)
            };
            Ok(Outcome::Open(live))
        }
    }
}

// What is live of a list under the choices in one lane of its rows, where it is marked, put behind the
// other lists. Gives its number. AllocError: there is no memory for it.
fn hand_on_lane(
    lists: &mut Lists,
    at: usize,
    rows: &[ChoiceRow],
    marks: &[u8],
    l: usize,
) -> Result<usize, AllocError>
    requires lane { l < 4 }
    requires marked { length (list_at lists.old at) ≤ length marks.now }
    requires marks { AreMarks l (list_at lists.old at)
        (take (length (list_at lists.old at)) (lane l rows.now)) marks.now }
    requires among { at < length lists.old }
    requires rows { length (list_at lists.old at) ≤ length rows.now }
    requires only { AreChoices (list_at lists.old at)
        (take (length (list_at lists.old at)) (lane l rows.now)) }
    ensures list { IfOk result (λ live. list_at lists.new live
        ≡ live_of (list_at lists.old at) (take (length (list_at lists.old at)) (lane l rows.now))) }
    ensures handed { IfOk result (IsHandedOn (length (list_at lists.old at)) lists.new) }
    ensures first { AreFirst lists.old lists.new }
{
    let len = lists.list(at).len() as usize;
    let live = lists.len();
    let choices = Lane {
        rows: &rows[..len],
        lane: l,
    };
    lists.push_marked(at, choices, marks, l)?;
    Ok(live)
}

// What is live of a list where no step chooses an operand: the list itself.
#[inline]
fn hand_on_whole(lists: &Lists, at: usize, rows: &[ChoiceRow], l: usize) -> usize
    requires among { at < length lists.now }
    requires tape { IsTape (list_at lists.now at) }
    requires whole { IsWhole (list_at lists.now at) }
    requires chosen { ChoosesNone (take (length (list_at lists.now at)) (lane l rows.now)) }
    ensures list { list_at lists.now result
        ≡ live_of (list_at lists.now at) (take (length (list_at lists.now at)) (lane l rows.now)) }
    ensures handed { IsHandedOn (length (list_at lists.now at)) lists.now result }
{
    at
}
