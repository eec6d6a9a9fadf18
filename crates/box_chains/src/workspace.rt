// Memory that looking at boxes needs.
ghost use Rattle.std.specs.List.{All};
ghost use Rattle.arrayvec.specs.ArrayVec.{array_vec_len};
ghost use Rattle.std.specs.Prelude.{◌≡◌, ◌+◌, ◌*◌, ◌<◌, ◌≤◌, ◌++◌, List, [], drop, length, map, take, IfOk, OnErr, OnOk};
ghost use Rattle.choice_trace.specs.Hulls.{choices_over, tape_hull};
ghost use Rattle.interval_ops.specs.Decided.{decided_of};
ghost use Rattle.interval_ops.specs.HullCounts.{CountsHulls};
ghost use Rattle.live_clauses.specs.Choices.{AreChoices};
ghost use Rattle.live_clauses.specs.Blocks.{list_at};
ghost use Rattle.live_clauses.specs.Live.{IsWhole, live_of};
ghost use Rattle.live_clauses.specs.declared.step.Step.{Step};
ghost use Rattle.view_places.specs.Spans.{IsInRoot};
ghost use Rattle.box_chains.specs.Outcomes.{AreFirst, AreInRoot, AreSeen, HandsOn, IsHandedOn, all_seen, asked_decisions, asked_outcome, asked_outcomes, decision_of, outcome_by, seen, traced_decisions, traced_outcomes};
ghost use Rattle.box_chains.specs.declared.outcome.Outcome.{Outcome};
ghost use Rattle.box_chains.specs.Tallied.{CountsAtMost};

use crate::rows::{LONGEST, Rows, held_open};
use crate::{AskedBox, Outcome, Places, TracedBox};
use arrayvec::ArrayVec;
use choice_trace::trace_steps;
use fixed_ops::{Fx, Tally};
use interval_ops::{Choice, Region, Span, decided};
use live_clauses::{Lists, Steps};
use std::alloc::{AllocError, Global};
use std::marker::Model;
use view_places::IndexBox;

/// Memory that looking at boxes needs, made once for lists of at most so many steps. Contracts see
/// the choices of the list that was traced last, and what stood there behind them.
#[derive(Debug, Drop)]
pub(crate) struct Workspace {
    hulls: Vec<Span>,
    choices: Vec<Choice>,
    rows: Rows,
}

impl Model for Workspace {
    ghost use Rattle.std.specs.Prelude.{◌≡◌, List, length};
    ghost use Rattle.interval_ops.specs.declared.choice.Choice.{Choice};

    ghost Value = { List Choice };

    ghost view = { λ w. w.choices.items };

    ghost invariant = { λ w. length w.hulls.items ≡ length w.choices.items };
}

impl Workspace {
    /// Room for lists of at most `len` steps. AllocError: there is no memory for it.
    pub fn new(alloc: Global, len: u32) -> Result<Workspace, AllocError>
        ensures { IfOk result (λ room. length room ≡ len) }
    {
        let none = Workspace {
            hulls: Vec::new(alloc),
            choices: Vec::new(alloc),
            rows: Rows::new(alloc),
        };
        none.restart(len)
    }

    /// The same in memory that there is already. AllocError: there is not enough of it, and it is given
    /// up.
    pub fn restart(self, len: u32) -> Result<Workspace, AllocError>
        ensures { IfOk result (λ room. length room ≡ len) }
    {
        let Workspace {
            mut hulls,
            mut choices,
            rows,
        } = self;
        let zero = Span::new(Fx::from_raw(0), Fx::from_raw(0));
        hulls.resize(len as usize, zero)?;
        choices.resize(len as usize, Choice::Both)?;
        Ok(Workspace {
            hulls,
            choices,
            rows,
        })
    }

    /// Traces a list over a region: whether all of it is inside, or outside, or neither is decided. The
    /// choices of its steps are kept. Each caller gets the loop over the steps, which runs faster where
    /// little stands beside it.
    #[inline(always)]
    pub fn look(&mut self, list: &Steps<'_>, region: Region, tally: &mut Tally) -> Option<bool>
        requires { length list.now ≤ length self.old }
        ensures decision { result ≡ decided_of (tape_hull region list.now) }
        ensures choices { take (length list.now) self.new ≡ choices_over region list.now }
        ensures rest { drop (length list.now) self.new ≡ drop (length list.now) self.old }
        ensures room { length self.new ≡ length self.old }
        ensures counted { CountsHulls (length list.now) tally.old tally.new }
    {
        let hull = trace_steps(list, region, &mut self.hulls, &mut self.choices, tally);
        decided(hull)
    }

    /// The same as a call, for callers that have much beside it.
    #[inline(never)]
    pub fn look_apart(
        &mut self,
        list: &Steps<'_>,
        region: Region,
        tally: &mut Tally,
    ) -> Option<bool>
        requires { length list.now ≤ length self.old }
        ensures decision { result ≡ decided_of (tape_hull region list.now) }
        ensures choices { take (length list.now) self.new ≡ choices_over region list.now }
        ensures rest { drop (length list.now) self.new ≡ drop (length list.now) self.old }
        ensures room { length self.new ≡ length self.old }
        ensures counted { CountsHulls (length list.now) tally.old tally.new }
    {
        self.look(list, region, tally)
    }

    // What is live of the list that was looked at, put behind the other lists. Gives its number.
    // AllocError: there is no memory for it.
    #[inline]
    fn hand_on(&self, lists: &mut Lists, at: usize) -> Result<usize, AllocError>
        requires among { at < length lists.old }
        requires room { length (list_at lists.old at) ≤ length self.now }
        requires choices { AreChoices (list_at lists.old at)
            (take (length (list_at lists.old at)) self.now) }
        ensures list { IfOk result (λ live. list_at lists.new live ≡ live_of (list_at lists.old at)
            (take (length (list_at lists.old at)) self.now)) }
        ensures handed { IfOk result (IsHandedOn (length (list_at lists.old at)) lists.new) }
        ensures first { AreFirst lists.old lists.new }
    {
        let len = lists.list(at).len() as usize;
        let live = lists.len();
        lists.push_live(at, &self.choices[..len])?;
        Ok(live)
    }

    /// What tracing a list over boxes that receive it tells of each of them, in their order, and that may be
    /// held open. AllocError: there is no memory for a shorter list, and no more was traced than that.
    #[inline]
    pub fn trace_asked_boxes(
        &mut self,
        lists: &mut Lists,
        at: usize,
        places: &Places,
        asked: &[AskedBox],
        tally: &mut Tally,
    ) -> Result<ArrayVec<Outcome<usize>, 8>, AllocError>
        requires among { at < length lists.old }
        requires whole { IsWhole (list_at lists.old at) }
        requires room { length (list_at lists.old at) ≤ length self.old }
        requires few { length asked.now ≤ 8 }
        requires within { AreInRoot places.now asked.now }
        ensures outcomes { IfOk result (λ outcomes. all_seen lists.new outcomes.items
            ≡ asked_outcomes places.now (list_at lists.old at) asked.now) }
        ensures shorter { IfOk result (λ outcomes.
            All (HandsOn (length (list_at lists.old at)) lists.new) outcomes.items) }
        ensures first { AreFirst lists.old lists.new }
        ensures room { length self.new ≡ length self.old }
        ensures counted { OnOk result (CountsHulls
            (length asked.now * length (list_at lists.old at)) tally.old tally.new) }
        ensures at_most { OnErr result (CountsAtMost 0
            (length asked.now * length (list_at lists.old at)) tally.old tally.new) }
    {
        let mut decisions = ArrayVec::new();
        self.trace_all(lists, at, places, asked, &mut decisions, tally)
    }

    /// Traces a tape over boxes that receive it, once over each: gives what its hull decides of each box,
    /// beside the outcome, in their order. So where a box that may be held open is all inside, its
    /// decision tells it from a box that is not decided. The tape is given by its number, and child
    /// tapes are put behind the others. Where several boxes are traced at once, one that chooses no
    /// operand keeps the number of the tape. AllocError: there is no memory for a child tape, and no
    /// more was traced than that.
    pub fn trace(
        &mut self,
        lists: &mut Lists,
        at: usize,
        places: &Places,
        asked: &[AskedBox],
        tally: &mut Tally,
    ) -> Result<ArrayVec<TracedBox, 8>, AllocError>
        requires among { at < length lists.old }
        requires whole { 2 ≤ length asked.now → IsWhole (list_at lists.old at) }
        requires room { length (list_at lists.old at) ≤ length self.old }
        requires few { length asked.now ≤ 8 }
        requires within { AreInRoot places.now asked.now }
        ensures decisions { IfOk result (λ traced. traced_decisions traced.items
            ≡ asked_decisions places.now (list_at lists.old at) asked.now) }
        ensures outcomes { IfOk result (λ traced.
            all_seen lists.new (traced_outcomes traced.items)
            ≡ asked_outcomes places.now (list_at lists.old at) asked.now) }
        ensures shorter { IfOk result (λ traced. All
            (HandsOn (length (list_at lists.old at)) lists.new) (traced_outcomes traced.items)) }
        ensures first { AreFirst lists.old lists.new }
        ensures room { length self.new ≡ length self.old }
        ensures counted { OnOk result (CountsHulls
            (length asked.now * length (list_at lists.old at)) tally.old tally.new) }
        ensures at_most { OnErr result (CountsAtMost 0
            (length asked.now * length (list_at lists.old at)) tally.old tally.new) }
    {
        let mut decisions = ArrayVec::new();
        let outcomes = self.trace_all(lists, at, places, asked, &mut decisions, tally)?;
        Ok(traced_boxes(decisions.as_slice(), outcomes.as_slice()))
    }

    // Traces a list over boxes, and adds what their hulls decide.
    fn trace_all(
        &mut self,
        lists: &mut Lists,
        at: usize,
        places: &Places,
        asked: &[AskedBox],
        decisions: &mut ArrayVec<Option<bool>, 8>,
        tally: &mut Tally,
    ) -> Result<ArrayVec<Outcome<usize>, 8>, AllocError>
        requires among { at < length lists.old }
        requires whole { 2 ≤ length asked.now → IsWhole (list_at lists.old at) }
        requires room { length (list_at lists.old at) ≤ length self.old }
        requires few { length asked.now ≤ 8 }
        requires none { decisions.old.items ≡ [] }
        requires within { AreInRoot places.now asked.now }
        ensures outcomes { IfOk result (λ outcomes. all_seen lists.new outcomes.items
            ≡ asked_outcomes places.now (list_at lists.old at) asked.now) }
        ensures decisions { OnOk result (decisions.new.items
            ≡ asked_decisions places.now (list_at lists.old at) asked.now) }
        ensures shorter { IfOk result (λ outcomes.
            All (HandsOn (length (list_at lists.old at)) lists.new) outcomes.items) }
        ensures first { AreFirst lists.old lists.new }
        ensures room { length self.new ≡ length self.old }
        ensures counted { OnOk result (CountsHulls
            (length asked.now * length (list_at lists.old at)) tally.old tally.new) }
        ensures at_most { OnErr result (CountsAtMost 0
            (length asked.now * length (list_at lists.old at)) tally.old tally.new) }
    {
        let mut outcomes = ArrayVec::new();
        let mut done = 0;
        while done < asked.len() {
            let rest = &asked[done..];
            done += self.trace_some(lists, at, places, rest, &mut outcomes, decisions, tally)?;
        }
        Ok(outcomes)
    }

    // Traces a list over the first of some boxes: four at once, two, or one. Gives how many, and adds
    // the outcome and the decision of each.
    #[inline]
    fn trace_some(
        &mut self,
        lists: &mut Lists,
        at: usize,
        places: &Places,
        asked: &[AskedBox],
        outcomes: &mut ArrayVec<Outcome<usize>, 8>,
        decisions: &mut ArrayVec<Option<bool>, 8>,
        tally: &mut Tally,
    ) -> Result<usize, AllocError>
        requires among { at < length lists.old }
        requires whole { 2 ≤ length asked.now → IsWhole (list_at lists.old at) }
        requires room { length (list_at lists.old at) ≤ length self.old }
        requires some { 0 < length asked.now }
        requires few { array_vec_len outcomes.old + length asked.now ≤ 8 }
        requires as_many { array_vec_len decisions.old ≡ array_vec_len outcomes.old }
        requires within { AreInRoot places.now asked.now }
        ensures some { IfOk result (λ count. 0 < count) }
        ensures few { IfOk result (λ count. count ≤ length asked.now) }
        ensures outcomes { IfOk result (λ count. (told : List (Outcome (List Step)))
            → AreSeen (length (list_at lists.old at)) lists.old outcomes.old.items told
            → AreSeen (length (list_at lists.old at)) lists.new outcomes.new.items
            (told ++ asked_outcomes places.now (list_at lists.old at) (take count asked.now))) }
        ensures decisions { IfOk result (λ count. decisions.new.items ≡ decisions.old.items
            ++ asked_decisions places.now (list_at lists.old at) (take count asked.now)) }
        ensures first { AreFirst lists.old lists.new }
        ensures len { IfOk result
            (λ count. array_vec_len outcomes.new ≡ array_vec_len outcomes.old + count) }
        ensures room { length self.new ≡ length self.old }
        ensures counted { IfOk result
            (λ count. CountsHulls (count * length (list_at lists.old at)) tally.old tally.new) }
        ensures at_most { OnErr result (CountsAtMost 0
            (length asked.now * length (list_at lists.old at)) tally.old tally.new) }
    {
        let len = lists.list(at).len() as usize;
        if len > LONGEST || asked.len() < 2 {
            let traced = self.trace_one(lists, at, places, asked[0], tally)?;
            outcomes.push(traced.outcome);
            decisions.push(traced.decision);
            return Ok(1);
        }
        self.rows.make_room(len)?;
        if asked.len() >= 4 {
            let four = &asked[..4];
            self.rows
                .trace::<4>(lists, at, places, four, outcomes, decisions, tally)?;
            Ok(4)
        } else {
            let two = &asked[..2];
            self.rows
                .trace::<2>(lists, at, places, two, outcomes, decisions, tally)?;
            Ok(2)
        }
    }

    /// What tracing a list over a box that receives it tells, and that may be held open. AllocError: there
    /// is no memory for a shorter list.
    #[inline]
    pub fn trace_asked_box(
        &mut self,
        lists: &mut Lists,
        at: usize,
        places: &Places,
        asked: AskedBox,
        tally: &mut Tally,
    ) -> Result<Outcome<usize>, AllocError>
        requires among { at < length lists.old }
        requires room { length (list_at lists.old at) ≤ length self.old }
        requires within { IsInRoot places.now.view places.now.lattice asked.range }
        ensures outcome { IfOk result (λ outcome. seen lists.new outcome
            ≡ asked_outcome places.now (list_at lists.old at) asked) }
        ensures shorter { IfOk result (HandsOn (length (list_at lists.old at)) lists.new) }
        ensures first { AreFirst lists.old lists.new }
        ensures room { length self.new ≡ length self.old }
        ensures counted { CountsHulls (length (list_at lists.old at)) tally.old tally.new }
    {
        let traced = self.trace_one(lists, at, places, asked, tally)?;
        Ok(traced.outcome)
    }

    // What tracing a list over a box tells, and what its hull decides. AllocError: there is no memory
    // for a shorter list.
    #[inline]
    fn trace_one(
        &mut self,
        lists: &mut Lists,
        at: usize,
        places: &Places,
        asked: AskedBox,
        tally: &mut Tally,
    ) -> Result<TracedBox, AllocError>
        requires among { at < length lists.old }
        requires room { length (list_at lists.old at) ≤ length self.old }
        requires within { IsInRoot places.now.view places.now.lattice asked.range }
        ensures decision { IfOk result (λ traced. traced.decision
            ≡ decision_of places.now (list_at lists.old at) asked.range) }
        ensures outcome { IfOk result (λ traced. seen lists.new traced.outcome
            ≡ asked_outcome places.now (list_at lists.old at) asked) }
        ensures shorter { IfOk result (λ traced.
            HandsOn (length (list_at lists.old at)) lists.new traced.outcome) }
        ensures first { AreFirst lists.old lists.new }
        ensures room { length self.new ≡ length self.old }
        ensures counted { CountsHulls (length (list_at lists.old at)) tally.old tally.new }
    {
        let decision = self.look(&lists.list(at), places.region(asked.range), tally);
        let outcome = self.outcome(lists, at, held_open(decision, asked.held))?;
        Ok(TracedBox { decision, outcome })
    }

    // What is told of a box, with the choices of the list that was looked at. AllocError: there is no
    // memory for a shorter list.
    #[inline]
    fn outcome(
        &self,
        lists: &mut Lists,
        at: usize,
        told: Option<bool>,
    ) -> Result<Outcome<usize>, AllocError>
        requires among { at < length lists.old }
        requires room { length (list_at lists.old at) ≤ length self.now }
        requires choices { AreChoices (list_at lists.old at)
            (take (length (list_at lists.old at)) self.now) }
        ensures outcome { IfOk result (λ outcome. seen lists.new outcome ≡ outcome_by told
            (live_of (list_at lists.old at) (take (length (list_at lists.old at)) self.now))) }
        ensures shorter { IfOk result (HandsOn (length (list_at lists.old at)) lists.new) }
        ensures first { AreFirst lists.old lists.new }
    {
        match told {
            Some(true) => Ok(Outcome::Inside),
            Some(false) => Ok(Outcome::Outside),
            None => Ok(Outcome::Open(self.hand_on(lists, at)?)),
        }
    }
}

// Outcomes, each with the decision beside it.
#[inline]
fn traced_boxes(decisions: &[Option<bool>], outcomes: &[Outcome<usize>]) -> ArrayVec<TracedBox, 8>
    requires few { length outcomes.now ≤ 8 }
    requires as_many { length decisions.now ≡ length outcomes.now }
    ensures decisions { traced_decisions result.items ≡ decisions.now }
    ensures outcomes { traced_outcomes result.items ≡ outcomes.now }
{
    let mut traced = ArrayVec::new();
    for i in 0..outcomes.len() {
        traced.push(TracedBox {
            decision: decisions[i],
            outcome: outcomes[i],
        });
    }
    traced
}
