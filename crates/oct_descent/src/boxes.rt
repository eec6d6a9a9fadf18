// Boxes that are kept, one after another.
ghost use Rattle.std.specs.Prelude.{◌≡◌, ◌<◌, ◌∷◌, [], None, Some, length, IfOk, IfSome, IsTrue, OnOk};
ghost use Rattle.live_clauses.specs.Blocks.{list_at};

use crate::begun_box::BegunBox;
use crate::old_boxes::OldBoxes;
use crate::split_box::SplitBox;
use live_clauses::{Lists, Tape};
use std::alloc::{AllocError, Global};

/// What is kept of boxes of cells that are looked into, one after another.
#[derive(Debug, Drop)]
pub struct Boxes {
    /// For each box of more than one cell its place, and behind it those of its halves.
    pub places: Vec<Option<SplitBox>>,
    /// Whether boxes are kept.
    pub keeps: bool,
    /// The list that the boxes receive which are looked into next, where boxes are kept: one that hands
    /// on an equal list shares it.
    pub received: Option<Tape>,
    /// What is left of the boxes of the grid before.
    pub before: OldBoxes,
}

impl Boxes {
    ghost use Rattle.std.specs.Prelude.{◌+◌, ◌-◌, ◌≤◌, drop, set, take, if◌then◌else◌};
    ghost use Rattle.oct_descent.specs.Adding.{Adds};
    ghost use Rattle.oct_descent.specs.OldBoxes.{first_count};

    /// No boxes, after a grid with these. The first of them receives a list. AllocError: there is no
    /// memory to share the list.
    pub fn new(
        alloc: Global,
        list: &Tape,
        keeps: bool,
        before: Vec<Option<SplitBox>>,
    ) -> Result<Boxes, AllocError>
        ensures places { IfOk result (λ boxes. boxes.places.items ≡ []) }
        ensures keeps { IfOk result (λ boxes. boxes.keeps ≡ keeps) }
        ensures before { IfOk result (λ boxes. boxes.before ≡ before.items) }
    {
        let received = if keeps { Some(list.share()?) } else { None };
        Ok(Boxes {
            places: Vec::new(alloc),
            keeps,
            received,
            before: OldBoxes::new(before),
        })
    }

    /// Adds a box that hands no list on. What the grid before had of it is given up, where it had some.
    /// AllocError: there is no memory for it.
    #[inline]
    pub fn push_shut(&mut self, was: bool) -> Result<(), AllocError>
        requires { IsTrue was → first_count self.old.before ≤ length self.old.before }
        ensures adds { OnOk result (Adds self.old self.new (None ∷ [])) }
        ensures left { OnOk result (self.new.before ≡ (if was
            then drop (first_count self.old.before) self.old.before else self.old.before)) }
    {
        if was {
            self.before.give_up(self.before.next_count());
        }
        if self.keeps {
            self.places.push(None)?;
        }
        Ok(())
    }

    /// Makes a place for a box that is split and hands on the list of a number, which its halves receive
    /// next: `end_split` fills it. AllocError: there is no memory for it.
    pub fn begin_split(&mut self, lists: &Lists, live: usize) -> Result<BegunBox, AllocError>
        requires { live < length lists.now }
        ensures adds { OnOk result (Adds self.old self.new (None ∷ [])) }
        ensures at { IfOk result (λ begun. begun.at ≡ length self.old.places.items) }
        ensures list { IfOk result (λ begun. begun.list
            ≡ (if self.old.keeps then Some (list_at lists.now live) else None)) }
        ensures left { self.new.before ≡ self.old.before }
    {
        let at = self.places.len();
        if !self.keeps {
            return Ok(BegunBox {
                at,
                list: None,
                above: None,
            });
        }
        self.places.push(None)?;
        let list = keep(lists, live, &self.received)?;
        let above = self.received.replace(list.share()?);
        Ok(BegunBox {
            at,
            list: Some(list),
            above,
        })
    }

    /// Fills the place of a box that is split, behind which those of its halves stand now.
    #[inline]
    pub fn end_split(&mut self, begun: BegunBox)
        requires { IfSome begun.list (λ list. begun.at < length self.old.places.items) }
        ensures filled { IfSome begun.list (λ list. self.new.places.items ≡ set self.old.places.items
            begun.at (Some (record {
              list = list;
              below = length self.old.places.items - (begun.at + 1);
            }))) }
        ensures keeps { self.new.keeps ≡ self.old.keeps }
        ensures left { self.new.before ≡ self.old.before }
    {
        let BegunBox { at, list, above } = begun;
        self.received = above;
        if let Some(list) = list {
            let below = self.places.len() - (at + 1);
            self.places[at] = Some(SplitBox { list, below });
        }
    }

    /// Adds a box as the grid before had it, with all boxes below it. AllocError: there is no memory for
    /// them.
    pub fn push_old(&mut self) -> Result<(), AllocError>
        requires { first_count self.old.before ≤ length self.old.before }
        ensures adds { OnOk result (Adds self.old self.new
            (take (first_count self.old.before) self.old.before)) }
        ensures left { OnOk result (self.new.before
            ≡ drop (first_count self.old.before) self.old.before) }
    {
        let count = self.before.next_count();
        self.before.move_to(count, &mut self.places)
    }
}

// The list of a number, in memory of its own: that of an equal list, where it is this one. AllocError:
// there is no memory for it.
fn keep(lists: &Lists, at: usize, equal: &Option<Tape>) -> Result<Tape, AllocError>
    requires { at < length lists.now }
    ensures { IfOk result (λ tape. tape ≡ list_at lists.now at) }
{
    match equal {
        Some(tape) if tape.steps().same(&lists.list(at)) => tape.share(),
        _ => lists.keep(at),
    }
}
