// The boxes of the grid before.
ghost use Rattle.std.specs.Prelude.{◌≡◌, ◌≤◌, ◌++◌, ◌↔◌, Some, drop, length, take, IsTrue, OnOk};
ghost use Rattle.oct_descent.specs.OldBoxes.{first_count, first_list};

use crate::split_box::SplitBox;
use live_clauses::{Steps, Tape};
use std::alloc::AllocError;
use std::collections::VecDeque;
use std::marker::Model;

/// What is left of the boxes of the grid before: the places of those that are not reached yet. So a box
/// is given up as soon as it was compared. Contracts see the places, in the order in which the boxes
/// are reached.
#[derive(Debug, Drop)]
pub struct OldBoxes {
    places: VecDeque<Option<SplitBox>>,
}

impl Model for OldBoxes {
    ghost use Rattle.std.specs.Prelude.{List, Option};
    ghost use Rattle.oct_descent.specs.declared.split_box.SplitBox.{SplitBox};

    ghost Value = { List (Option SplitBox) };

    ghost view = { λ b. b.places.items };
}

impl OldBoxes {
    /// The boxes of a whole grid.
    pub fn new(places: Vec<Option<SplitBox>>) -> OldBoxes
        ensures { result ≡ places.items }
    {
        OldBoxes {
            places: VecDeque::from_vec(places),
        }
    }

    /// Whether the next box handed on these steps.
    #[inline]
    pub fn next_is(&self, list: &Steps<'_>) -> bool
        ensures { IsTrue result ↔ (first_list self.now ≡ Some list.now) }
    {
        match self.places.front() {
            Some(Some(old)) => old.list.steps().same(list),
            _ => false,
        }
    }

    /// How many places the next box has: its own and those of the boxes below it.
    #[inline]
    pub fn next_count(&self) -> usize
        requires { first_count self.now ≤ length self.now }
        ensures { result ≡ first_count self.now }
    {
        // There are fewer places than a number can tell.
        let _len = self.places.len();
        match self.places.front() {
            Some(Some(old)) => old.below + 1,
            _ => 1,
        }
    }

    /// Takes the list of the next box.
    #[inline]
    pub fn take_next(&mut self) -> Option<Tape>
        ensures list { result ≡ first_list self.old }
        ensures left { self.new ≡ drop 1 self.old }
    {
        match self.places.pop_front() {
            Some(Some(old)) => Some(old.list),
            _ => None,
        }
    }

    /// Gives up so many places.
    pub fn give_up(&mut self, count: usize)
        ensures { self.new ≡ drop count self.old }
    {
        for _ in 0..count {
            self.places.pop_front();
        }
    }

    /// Moves so many places behind others. AllocError: there is no memory for them.
    pub fn move_to(
        &mut self,
        count: usize,
        kept: &mut Vec<Option<SplitBox>>,
    ) -> Result<(), AllocError>
        requires { count ≤ length self.old }
        ensures moved { OnOk result (kept.new.items ≡ kept.old.items ++ take count self.old) }
        ensures left { OnOk result (self.new ≡ drop count self.old) }
    {
        for _ in 0..count {
            if let Some(place) = self.places.pop_front() {
                kept.push(place)?;
            }
        }
        Ok(())
    }
}
