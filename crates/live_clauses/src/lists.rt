// Lists of steps in one block of memory.
ghost use Rattle.std.specs.Prelude.{◌≡◌, ◌<◌, ◌≤◌, ◌+◌, [], ◌∷◌, ◌++◌, length, slice_get, take, Some, IfOk, OnOk, OnErr};
ghost use Rattle.std.specs.List.{All};
ghost use Rattle.live_clauses.specs.Blocks.{AreParts, list_at};
ghost use Rattle.live_clauses.specs.Choices.{AreChoices};
ghost use Rattle.live_clauses.specs.Live.{live_of};
ghost use Rattle.live_clauses.specs.Marks.{AreMarks};
ghost use Rattle.live_clauses.specs.Steps.{IsTape};

use crate::block::{append_live, append_marked};
use crate::owned::keep;
use crate::packed_step::PackedStep;
use crate::part::Part;
use crate::{Choices, Steps, Tape};
use fixed_ops::Fx;
use std::alloc::{AllocError, Global};
use std::marker::Model;
use std::rc::RcSlice;

/// Lists of steps in one block of memory, one after another, of which the last go first. All come
/// from the first. Contracts see the lists, in their order.
#[derive(Debug, Drop)]
pub struct Lists {
    // The steps of all lists, and after them memory for more.
    steps: Vec<PackedStep>,
    parts: Vec<Part>,
    // The table of the constants of all lists.
    constants: RcSlice<Fx>,
    // What is needed of a list that is shortened, and its new numbers, with room for the longest
    // list and for as many steps as there are constants.
    marks: Vec<u8>,
    numbers: Vec<u16>,
}

impl Model for Lists {
    ghost use Rattle.std.specs.Prelude.{◌≤◌, List, length};
    ghost use Rattle.std.specs.Rc.{rc_slice_items};
    ghost use Rattle.live_clauses.specs.declared.step.Step.{Step};

    ghost Value = { List (List Step) };

    ghost use Rattle.live_clauses.specs.Blocks.{AreParts, parts_of};

    ghost view = { λ l. parts_of (rc_slice_items l.constants) l.steps.items l.parts.items };

    ghost invariant = { λ l.
        AreParts (rc_slice_items l.constants) l.steps.items (length l.numbers.items) l.parts.items
        × (length l.numbers.items ≤ length l.marks.items)
        × (length (rc_slice_items l.constants) ≤ length l.numbers.items) };
}

impl Lists {
    /// One list, from which all others are to come. Its steps are copied, and the table of its
    /// constants is shared. AllocError: there is no memory for it.
    pub fn new(alloc: Global, root: &Tape) -> Result<Lists, AllocError>
        ensures { IfOk result (λ lists. lists ≡ root.now ∷ []) }
    {
        let (steps, parts) = (Vec::new(alloc), Vec::new(alloc));
        let (marks, numbers) = (Vec::new(alloc), Vec::new(alloc));
        Lists::begin(steps, parts, marks, numbers, root)
    }

    /// One list in place of all others, in their memory. AllocError: there is not enough of it, and the
    /// others are given up.
    pub fn restart(self, root: &Tape) -> Result<Lists, AllocError>
        ensures { IfOk result (λ lists. lists ≡ root.now ∷ []) }
    {
        Lists::begin(self.steps, self.parts, self.marks, self.numbers, root)
    }

    // One list in memory that may hold anything.
    fn begin(
        mut steps: Vec<PackedStep>,
        mut parts: Vec<Part>,
        mut marks: Vec<u8>,
        mut numbers: Vec<u16>,
        root: &Tape,
    ) -> Result<Lists, AllocError>
        ensures { IfOk result (λ lists. lists ≡ root.now ∷ []) }
    {
        let (packed, constants) = root.packed();
        let room = packed.len().max(constants.len());
        marks.resize(room, 0)?;
        numbers.resize(room, 0)?;
        steps.clear();
        steps.extend_from_slice(packed)?;
        parts.clear();
        parts.push(Part {
            start: 0,
            end: packed.len(),
        })?;
        Ok(Lists {
            steps,
            parts,
            constants: constants.clone()?,
            marks,
            numbers,
        })
    }

    /// How many lists there are.
    #[inline]
    pub fn len(&self) -> usize
        ensures { result ≡ length self.now }
    {
        self.parts.len()
    }

    /// The steps of the list at a place.
    #[inline]
    pub fn list(&self, at: usize) -> Steps<'_>
        requires { at < length self.now }
        ensures list { result ≡ list_at self.now at }
        ensures there { slice_get self.now at ≡ Some result }
        ensures tape { IsTape result }
    {
        let part = self.parts[at];
        Steps::from_packed(&self.steps[part.start..part.end], self.constants.as_slice())
    }

    /// Puts the live list of the list at a place behind the others: the steps that its last step needs
    /// where each choice is right, numbered anew. There is a choice for each of its steps, which is
    /// Both where the step is neither a minimum nor a maximum. AllocError: there is no memory for it.
    pub fn push_live<C: Choices>(&mut self, at: usize, choices: C) -> Result<(), AllocError>
        requires at { at < length self.old }
        requires enough { length (list_at self.old at) ≤ length (C.list choices) }
        requires choices { AreChoices (list_at self.old at) (C.list choices) }
        ensures pushed { OnOk result (self.new
            ≡ self.old ++ live_of (list_at self.old at) (C.list choices) ∷ []) }
        ensures stays { OnErr result (self.new ≡ self.old) }
    {
        let part = self.parts[at];
        append_live(
            &mut self.steps,
            &mut self.parts,
            &mut self.marks,
            &mut self.numbers,
            part,
            self.constants.as_slice(),
            choices,
        )
    }

    /// The same where the steps that are needed are marked already: each in the bit of a lane, of
    /// which there are eight.
    pub fn push_marked<C: Choices>(
        &mut self,
        at: usize,
        choices: C,
        marks: &[u8],
        lane: usize,
    ) -> Result<(), AllocError>
        requires lane { lane < 8 }
        requires at { at < length self.old }
        requires enough { length (list_at self.old at) ≤ length (C.list choices) }
        requires choices { AreChoices (list_at self.old at) (C.list choices) }
        requires marked { length (list_at self.old at) ≤ length marks.now }
        requires marks { AreMarks lane (list_at self.old at) (C.list choices) marks.now }
        ensures pushed { OnOk result (self.new
            ≡ self.old ++ live_of (list_at self.old at) (C.list choices) ∷ []) }
        ensures stays { OnErr result (self.new ≡ self.old) }
    {
        let part = self.parts[at];
        append_marked(
            &mut self.steps,
            &mut self.parts,
            marks,
            lane,
            &mut self.numbers,
            part,
            self.constants.as_slice(),
            choices,
        )
    }

    /// The lists before a place, of which there are that many, without the others.
    pub fn cut(&mut self, count: usize)
        requires { count ≤ length self.old }
        ensures { self.new ≡ take count self.old }
    {
        self.parts.truncate(count);
    }

    /// The list at a place, in memory of its own. AllocError: there is no memory for it.
    pub fn keep(&self, at: usize) -> Result<Tape, AllocError>
        requires { at < length self.now }
        ensures { IfOk result (λ tape. tape ≡ list_at self.now at) }
    {
        keep(*self.steps.allocator(), &self.list(at))
    }
}
