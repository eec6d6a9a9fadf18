// What is done at the boxes of a descent.
ghost use Rattle.std.specs.Prelude.{◌≡◌, ℕ, List, ◌∷◌, None, true, IfNone, IfOk, IfSome, OnOk, OnErr};
ghost use Rattle.box_chains.specs.Chains.{handed_on, visit};
ghost use Rattle.box_chains.specs.Desks.{list_of};
ghost use Rattle.box_descent.specs.Founds.{IsFound, GivesTape, child_tape};
ghost use Rattle.box_descent.specs.Looked.{IsPlaced, MayVisit, looked};
ghost use Rattle.box_descent.specs.Plans.{goes_on};
ghost use Rattle.box_descent.specs.Visitors.{Meaning};
ghost use Rattle.fixed_ops.specs.Counts.{Counts};
ghost use Rattle.live_clauses.specs.Live.{IsWhole};
ghost use Rattle.view_places.specs.Boxes.{Indices};

use crate::{Found, Plan};
use box_chains::Desk;
use fixed_ops::Tally;
use std::alloc::AllocError;
use view_places::IndexBox;

/// What is done at the boxes of a descent.
pub trait Visitor {
    /// What a box that was opened is remembered by until its children were visited.
    type Mark: Drop;

    /// What a visitor does, as relations of what it was and what it has become.
    ghost meaning: { Meaning Self Self.Mark };

    /// How the boxes are split, traced and ordered.
    fn plan(&self) -> Plan
        ensures { result ≡ meaning.plan };

    /// Whether a box is wanted: no other is traced or visited.
    fn wants(&self, desk: &Desk, b: IndexBox) -> bool
        requires placed { IsPlaced desk.now b }
        requires ready { meaning.ready (looked meaning.plan desk.now) self.now }
        ensures { result ≡ meaning.wanted (looked meaning.plan desk.now) self.now b };

    /// Visits a box that has no children to be visited. It was given a tape, by its number. AllocError:
    /// there is no memory for what that takes.
    fn visit(
        &mut self,
        desk: &mut Desk,
        b: IndexBox,
        given: usize,
        found: Found,
        tally: &mut Tally,
    ) -> Result<(), AllocError>
        requires may { MayVisit meaning.plan desk.old b given }
        requires found { IsFound meaning.plan desk.old b given found }
        requires end { child_tape meaning.plan desk.old b found ≡ None }
        requires next { (later : List Indices) × (meaning.fits (looked meaning.plan desk.old) self.old
            (list_of desk.old given) (b ∷ later)) }
        ensures drawn { OnOk result (meaning.draws (looked meaning.plan desk.old) self.old self.new
            (visit b (list_of desk.old given)) tally.old tally.new) }
        ensures halted { OnErr result (meaning.halts (looked meaning.plan desk.old) self.old self.new
            (visit b (list_of desk.old given)) tally.old tally.new) }
        ensures kept { desk.new ≡ desk.old };

    /// Opens a box whose children are to be visited. It was given a tape, and gives them the pruned one.
    /// None: there is nothing to be done at them. AllocError: there is no memory for what that takes.
    fn open(
        &mut self,
        desk: &Desk,
        b: IndexBox,
        given: usize,
        pruned: usize,
    ) -> Result<Option<Self::Mark>, AllocError>
        requires may { MayVisit meaning.plan desk.now b given }
        requires pruned { GivesTape meaning.plan desk.now b pruned
            (handed_on (looked meaning.plan desk.now) (visit b (list_of desk.now given))) }
        requires whole { IsWhole (list_of desk.now pruned) }
        requires long { goes_on meaning.plan (looked meaning.plan desk.now)
            (visit b (list_of desk.now given)) ≡ true }
        requires next { (later : List Indices) × (meaning.fits (looked meaning.plan desk.now) self.old
            (list_of desk.now given) (b ∷ later)) }
        ensures opened { IfOk result (λ mark. IfSome mark (meaning.opens (looked meaning.plan desk.now)
            self.old self.new (visit b (list_of desk.now given)))) }
        ensures done { IfOk result (λ mark. IfNone mark ((tally : Counts) → meaning.draws
            (looked meaning.plan desk.now) self.old self.new (visit b (list_of desk.now given))
            tally tally)) }
        ensures halted { OnErr result ((tally : Counts) → meaning.halts
            (looked meaning.plan desk.now) self.old self.new (visit b (list_of desk.now given)) tally
            tally) };

    /// Closes the box that was opened last, once its children were visited.
    fn close(&mut self, mark: Self::Mark)
        ensures { meaning.closes self.old self.new mark };
}
