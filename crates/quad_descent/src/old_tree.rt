// The tree before.
ghost use Rattle.std.specs.Prelude.{◌≡◌, ◌↔◌, ◌<◌, Some, IsTrue, is_some, take, if◌then◌else◌, OnOk};

use crate::boxes::Boxes;
use crate::node::Node;
use crate::old_lists::OldLists;
use live_clauses::{Steps, Tape};
use std::alloc::AllocError;

/// What is left of the tree that an image is drawn after: its nodes and lists from the box that is
/// reached next on, those of its halves next.
#[derive(Debug, Drop)]
pub struct OldTree<'a> {
    /// The nodes.
    pub nodes: &'a [Node],
    /// For each node the list that its box handed on to its halves, and none where it had no halves.
    pub lists: OldLists,
    /// The list that the boxes received there which are reached next. None: the tree did not reach them,
    /// and has nothing of them.
    pub received: Option<Tape>,
}

impl<'a> OldTree<'a> {
    ghost use Rattle.std.specs.Prelude.{◌≡◌, ◌↔◌, ◌<◌, Some, IsTrue, is_some, take, if◌then◌else◌, OnOk};
    ghost use Rattle.quad_descent.specs.Adding.{Adds};
    ghost use Rattle.quad_descent.specs.OldTrees.{IsBehind, IsThere, next_count, next_handed};

    // How many nodes stand for the next box: its own and those of the boxes below it.
    #[inline]
    fn count(&self) -> usize
        requires { IsThere self.now }
        ensures { result ≡ next_count self.now }
    {
        if self.received.is_some() {
            self.nodes[0].count()
        } else {
            0
        }
    }

    /// Whether the next box handed on these steps.
    #[inline]
    pub fn handed_on(&self, list: &Steps<'_>) -> bool
        ensures { IsTrue result ↔ (next_handed self.now ≡ Some list.now) }
    {
        self.received.is_some() && self.lists.next_is(list)
    }

    /// Gives up the next box with those below it.
    #[inline]
    pub fn give_up(&mut self)
        requires { IsThere self.old }
        ensures behind { IsBehind (next_count self.old) self.old self.new }
        ensures received { self.new.received ≡ self.old.received }
    {
        let count = self.count();
        let nodes = self.nodes;
        self.nodes = &nodes[count..];
        self.lists.give_up(count);
    }

    /// Moves the next box behind others, with those below it. AllocError: there is no memory for them.
    pub fn move_to(&mut self, boxes: &mut Boxes) -> Result<(), AllocError>
        requires { IsThere self.old }
        ensures adds { OnOk result (Adds boxes.old boxes.new
            (take (next_count self.old) self.old.nodes.now)
            (take (next_count self.old) self.old.lists)) }
        ensures behind { OnOk result (IsBehind (next_count self.old) self.old self.new) }
        ensures received { self.new.received ≡ self.old.received }
    {
        let count = self.count();
        let nodes = self.nodes;
        boxes.nodes.extend_from_slice(&nodes[..count])?;
        self.nodes = &nodes[count..];
        self.lists.move_to(count, &mut boxes.lists)
    }

    /// Goes on to the halves of the next box, where it had some. Gives the list that it received.
    #[inline]
    pub fn open(&mut self) -> Option<Tape>
        requires { IsThere self.old }
        ensures received { result ≡ self.old.received }
        ensures handed { self.new.received ≡ next_handed self.old }
        ensures behind { IsBehind (if is_some self.old.received then 1 else 0) self.old self.new }
    {
        let received = self.received.take();
        if received.is_some() {
            let nodes = self.nodes;
            self.nodes = &nodes[1..];
            self.received = self.lists.take_next();
        }
        received
    }
}
