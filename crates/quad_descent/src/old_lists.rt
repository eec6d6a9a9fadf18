// The lists of the tree before.
ghost use Rattle.std.specs.Prelude.{◌≡◌, ◌≤◌, ◌++◌, ◌↔◌, None, Some, drop, length, slice_index_or, take, IsTrue, OnOk};

use live_clauses::{Steps, Tape};
use std::alloc::AllocError;
use std::collections::VecDeque;
use std::marker::Model;

/// What is left of the lists of the tree before: for each box that is not reached yet the list that
/// it handed on to its halves, and none where it had no halves. So a list is given up as soon as its
/// box was compared. Contracts see the lists, in the order in which their boxes are reached.
#[derive(Debug, Drop)]
pub struct OldLists {
    lists: VecDeque<Option<Tape>>,
}

impl Model for OldLists {
    ghost use Rattle.std.specs.Prelude.{List, Option};
    ghost use Rattle.live_clauses.specs.declared.step.Step.{Step};

    ghost Value = { List (Option (List Step)) };

    ghost view = { λ l. l.lists.items };
}

impl OldLists {
    /// The lists of a whole tree.
    pub fn new(lists: Vec<Option<Tape>>) -> OldLists
        ensures { result ≡ lists.items }
    {
        OldLists {
            lists: VecDeque::from_vec(lists),
        }
    }

    /// Whether the next box handed on these steps.
    #[inline]
    pub fn next_is(&self, list: &Steps<'_>) -> bool
        ensures { IsTrue result ↔ (slice_index_or self.now 0 None ≡ Some list.now) }
    {
        match self.lists.front() {
            Some(Some(old)) => old.steps().same(list),
            _ => false,
        }
    }

    /// Takes the list of the next box.
    #[inline]
    pub fn take_next(&mut self) -> Option<Tape>
        ensures list { result ≡ slice_index_or self.old 0 None }
        ensures left { self.new ≡ drop 1 self.old }
    {
        self.lists.pop_front()?
    }

    /// Gives up the lists of so many boxes.
    pub fn give_up(&mut self, count: usize)
        ensures { self.new ≡ drop count self.old }
    {
        for _ in 0..count {
            self.lists.pop_front();
        }
    }

    /// Moves the lists of so many boxes behind others. AllocError: there is no memory for them.
    pub fn move_to(&mut self, count: usize, kept: &mut Vec<Option<Tape>>) -> Result<(), AllocError>
        requires { count ≤ length self.old }
        ensures moved { OnOk result (kept.new.items ≡ kept.old.items ++ take count self.old) }
        ensures left { OnOk result (self.new ≡ drop count self.old) }
    {
        for _ in 0..count {
            if let Some(list) = self.lists.pop_front() {
                kept.push(list)?;
            }
        }
        Ok(())
    }
}
