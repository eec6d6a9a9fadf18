// What looking into boxes needs.
ghost use Rattle.std.specs.List.{All};
ghost use Rattle.std.specs.Prelude.{◌≡◌, ◌*◌, ◌<◌, ◌≤◌, [], ◌∷◌, length, map, take, IfOk, OnErr, OnOk};
ghost use Rattle.choice_trace.specs.Hulls.{tape_hull};
ghost use Rattle.interval_ops.specs.Decided.{decided_of};
ghost use Rattle.interval_ops.specs.HullCounts.{CountsHulls};
ghost use Rattle.live_clauses.specs.Live.{IsWhole};
ghost use Rattle.view_places.specs.Spans.{IsInRoot, region_of, root_box_of};
ghost use Rattle.box_chains.specs.Desks.{HasMore, Tracing, list_of, samples};
ghost use Rattle.box_chains.specs.Outcomes.{AreInRoot, HandsOn, all_seen, asked_decisions, asked_outcome, asked_outcomes, decision_of, seen, traced_decisions, traced_outcomes};
ghost use Rattle.box_chains.specs.Tallied.{CountsAtMost};

use crate::workspace::Workspace;
use crate::{AskedBox, Outcome, Places, TracedBox};
use arrayvec::ArrayVec;
use fixed_ops::{Fx, Tally};
use live_clauses::{Lists, Tape};
use std::alloc::{AllocError, Global};
use std::marker::Model;
use view_places::{IndexBox, Lattice, View};

/// What looking into the boxes of a lattice over a view with a list needs, made once: the places of the
/// samples, the list and the shorter ones that boxes receive, each with a number, memory for tracing
/// lists over boxes, and rows of eight numbers for evaluating them. Contracts see the samples, the
/// lists and how many steps a list may have.
#[derive(Debug, Drop)]
pub struct Desk {
    /// The places of the samples.
    pub places: Places,
    room: Workspace,
    /// The lists that boxes receive, those of a box behind those of the boxes above it.
    pub lists: Lists,
    /// A row of numbers for each step of the lists that were evaluated: `make_rows` makes more.
    pub rows: Vec<[Fx; 8]>,
}

impl Model for Desk {
    ghost use Rattle.std.specs.Prelude.{length};
    ghost use Rattle.box_chains.specs.Desks.{Tracing};

    ghost Value = { Tracing };

    ghost view = { λ d. record {
      view = d.places.view;
      lattice = d.places.lattice;
      room = length d.room;
      lists = d.lists;
    } };
}

impl Desk {
    /// What looking into the boxes of a lattice over a view needs, with a list, which has the number 0.
    /// AllocError: there is no memory for it.
    pub fn new(
        alloc: Global,
        view: &View,
        lattice: Lattice,
        list: &Tape,
    ) -> Result<Desk, AllocError>
        ensures { IfOk result (λ desk. desk ≡ record {
          view = view.now;
          lattice = lattice;
          room = length list.now;
          lists = list.now ∷ [];
        }) }
    {
        let places = Places::new(alloc, view, lattice)?;
        let room = Workspace::new(alloc, list.len())?;
        let lists = Lists::new(alloc, list)?;
        Ok(Desk {
            places,
            room,
            lists,
            rows: Vec::new(alloc),
        })
    }

    /// The same with another list, in the memory that there is already. AllocError: there is not enough
    /// of it, and it is given up.
    pub fn restart(self, list: &Tape) -> Result<Desk, AllocError>
        ensures { IfOk result (λ desk. desk ≡ record {
          view = self.view;
          lattice = self.lattice;
          room = length list.now;
          lists = list.now ∷ [];
        }) }
    {
        Ok(Desk {
            places: self.places,
            room: self.room.restart(list.len())?,
            lists: self.lists.restart(list)?,
            rows: self.rows,
        })
    }

    /// The box of all samples.
    #[inline]
    pub fn root(&self) -> IndexBox
        ensures { result ≡ root_box_of self.now.view self.now.lattice }
    {
        self.places.root()
    }

    /// The columns of the view.
    #[inline]
    pub fn w(&self) -> u32
        ensures { result ≡ self.now.view.w }
    {
        self.places.w()
    }

    /// What tracing a list over a box that receives it tells, and that may be held open. The list is given by
    /// its number, and a shorter one that the box hands on is put behind the others. AllocError: there is
    /// no memory for it.
    #[inline]
    pub fn trace_asked_box(
        &mut self,
        list: usize,
        asked: AskedBox,
        tally: &mut Tally,
    ) -> Result<Outcome<usize>, AllocError>
        requires among { list < length self.old.lists }
        requires room { length (list_of self.old list) ≤ self.old.room }
        requires within { IsInRoot self.old.view self.old.lattice asked.range }
        ensures outcome { IfOk result (λ outcome. seen self.new.lists outcome
            ≡ asked_outcome (samples self.old) (list_of self.old list) asked) }
        ensures shorter { IfOk result
            (HandsOn (length (list_of self.old list)) self.new.lists) }
        ensures more { HasMore self.old self.new }
        ensures counted { CountsHulls (length (list_of self.old list)) tally.old tally.new }
    {
        self.room
            .trace_asked_box(&mut self.lists, list, &self.places, asked, tally)
    }

    /// The same of several boxes, in their order. AllocError: there is no memory for a shorter list, and no
    /// more was traced than that.
    #[inline]
    pub fn trace_asked_boxes(
        &mut self,
        list: usize,
        asked: &[AskedBox],
        tally: &mut Tally,
    ) -> Result<ArrayVec<Outcome<usize>, 8>, AllocError>
        requires among { list < length self.old.lists }
        requires whole { IsWhole (list_of self.old list) }
        requires room { length (list_of self.old list) ≤ self.old.room }
        requires few { length asked.now ≤ 8 }
        requires within { AreInRoot (samples self.old) asked.now }
        ensures outcomes { IfOk result (λ outcomes. all_seen self.new.lists outcomes.items
            ≡ asked_outcomes (samples self.old) (list_of self.old list) asked.now) }
        ensures shorter { IfOk result (λ outcomes.
            All (HandsOn (length (list_of self.old list)) self.new.lists) outcomes.items) }
        ensures more { HasMore self.old self.new }
        ensures counted { OnOk result (CountsHulls
            (length asked.now * length (list_of self.old list)) tally.old tally.new) }
        ensures at_most { OnErr result (CountsAtMost 0
            (length asked.now * length (list_of self.old list)) tally.old tally.new) }
    {
        self.room
            .trace_asked_boxes(&mut self.lists, list, &self.places, asked, tally)
    }

    /// Traces a tape over boxes that receive it, once over each: gives what its hull decides of each box,
    /// beside the outcome, in their order. The tape is given by its number, and child tapes are put
    /// behind the others. AllocError: there is no memory for a child tape, and no more was traced than
    /// that.
    #[inline]
    pub fn trace(
        &mut self,
        tape: usize,
        asked: &[AskedBox],
        tally: &mut Tally,
    ) -> Result<ArrayVec<TracedBox, 8>, AllocError>
        requires among { tape < length self.old.lists }
        requires whole { 2 ≤ length asked.now → IsWhole (list_of self.old tape) }
        requires room { length (list_of self.old tape) ≤ self.old.room }
        requires few { length asked.now ≤ 8 }
        requires within { AreInRoot (samples self.old) asked.now }
        ensures decisions { IfOk result (λ traced. traced_decisions traced.items
            ≡ asked_decisions (samples self.old) (list_of self.old tape) asked.now) }
        ensures outcomes { IfOk result (λ traced.
            all_seen self.new.lists (traced_outcomes traced.items)
            ≡ asked_outcomes (samples self.old) (list_of self.old tape) asked.now) }
        ensures shorter { IfOk result (λ traced.
            All (HandsOn (length (list_of self.old tape)) self.new.lists)
            (traced_outcomes traced.items)) }
        ensures more { HasMore self.old self.new }
        ensures counted { OnOk result (CountsHulls
            (length asked.now * length (list_of self.old tape)) tally.old tally.new) }
        ensures at_most { OnErr result (CountsAtMost 0
            (length asked.now * length (list_of self.old tape)) tally.old tally.new) }
    {
        self.room
            .trace(&mut self.lists, tape, &self.places, asked, tally)
    }

    /// Traces a list, given by its number, over a box, and hands nothing on: whether all of the box is
    /// inside, or outside, or neither is decided. It is a call, for callers that have much beside it.
    #[inline]
    pub fn look_apart(&mut self, list: usize, b: IndexBox, tally: &mut Tally) -> Option<bool>
        requires among { list < length self.old.lists }
        requires room { length (list_of self.old list) ≤ self.old.room }
        requires within { IsInRoot self.old.view self.old.lattice b }
        ensures decision { result ≡ decided_of
            (tape_hull (region_of self.old.view self.old.lattice b) (list_of self.old list)) }
        ensures kept { self.new ≡ self.old }
        ensures counted { CountsHulls (length (list_of self.old list)) tally.old tally.new }
    {
        let region = self.places.region(b);
        self.room.look_apart(&self.lists.list(list), region, tally)
    }

    /// Gives up the lists behind the first `count` ones. Where those alone stood before, the desk is as
    /// it was then.
    #[inline]
    pub fn cut(&mut self, count: usize)
        requires { count ≤ length self.old.lists }
        ensures cut { self.new ≡ record self.old { lists = take count self.old.lists } }
        ensures back { (before : Tracing) → HasMore before self.old
            → count ≡ length before.lists → self.new ≡ before }
    {
        self.lists.cut(count);
    }
}

/// Makes a row of numbers for each step of a list of `len` steps, where there are fewer.
/// AllocError: there is no memory for them.
#[inline]
pub fn make_rows(rows: &mut Vec<[Fx; 8]>, len: u32) -> Result<(), AllocError>
    ensures { OnOk result (len ≤ length rows.new.items) }
{
    let count = len as usize;
    if rows.len() < count {
        let zeros = [Fx::from_raw(0); 8];
        rows.resize(count, zeros)?;
    }
    Ok(())
}
