// A list of steps.
ghost use Rattle.std.specs.Prelude.{◌≡◌, ◌<◌, ◌↔◌, map, length, slice_get, IfOk, IsTrue};
ghost use Rattle.std.specs.Rc.{rc_slice_items};
ghost use Rattle.live_clauses.specs.Packed.{unpacked};
ghost use Rattle.live_clauses.specs.Steps.{IsStepAt, IsTape};

use crate::Step;
use crate::equality::same_steps;
use crate::packed_step::PackedStep;
use fixed_ops::Fx;
use std::alloc::AllocError;
use std::marker::Model;
use std::rc::RcSlice;

/// A list of steps: from 1 to 65,535 of them, each of whose operands stands before it. The last one
/// is the output.
#[derive(Debug, Drop)]
pub struct Tape {
    steps: RcSlice<PackedStep>,
    // The table of the numbers of constants, which lists that are shortened from one share.
    constants: RcSlice<Fx>,
}

impl Model for Tape {
    ghost use Rattle.std.specs.Prelude.{List, map};
    ghost use Rattle.std.specs.Rc.{rc_slice_items};
    ghost use Rattle.live_clauses.specs.declared.step.Step.{Step};

    ghost Value = { List Step };

    ghost use Rattle.live_clauses.specs.Packed.{unpacked};
    ghost use Rattle.live_clauses.specs.Steps.{IsTape};

    ghost view = { λ t. map (unpacked (rc_slice_items t.constants)) (rc_slice_items t.steps) };

    ghost invariant = { λ t.
        IsTape (map (unpacked (rc_slice_items t.constants)) (rc_slice_items t.steps)) };
}

impl Tape {
    // The list of these steps, with the table of their constants.
    pub(crate) fn from_packed(steps: RcSlice<PackedStep>, constants: RcSlice<Fx>) -> Tape
        requires { IsTape (map (unpacked (rc_slice_items constants)) (rc_slice_items steps)) }
        ensures { result ≡ map (unpacked (rc_slice_items constants)) (rc_slice_items steps) }
    {
        Tape { steps, constants }
    }

    // The steps as they are kept, and the table of their constants.
    #[inline]
    pub(crate) fn packed(&self) -> (&[PackedStep], &RcSlice<Fx>)
        ensures steps { map (unpacked (rc_slice_items result.1.now)) result.0.now ≡ self.now }
        ensures len { length result.0.now ≡ length self.now }
        ensures tape { IsTape self.now }
    {
        (self.steps.as_slice(), &self.constants)
    }

    /// How many steps there are.
    #[inline]
    pub fn len(&self) -> u32
        ensures len { result ≡ length self.now }
        ensures tape { IsTape self.now }
    {
        self.steps().len()
    }

    /// The step at a place, whose operands stand before it.
    #[inline]
    pub fn step(&self, at: u32) -> Step
        requires { at < length self.now }
        ensures step { slice_get self.now at ≡ Some result }
        ensures stands { IsStepAt at result }
    {
        self.steps().step(at)
    }

    /// The steps, to be read one after another without a look at the list's head.
    #[inline]
    pub fn steps(&self) -> Steps<'_>
        ensures steps { result ≡ self.now }
        ensures tape { IsTape self.now }
    {
        Steps {
            packed: self.steps.as_slice(),
            constants: self.constants.as_slice(),
        }
    }

    /// The same list once more. The steps are not copied.
    pub fn share(&self) -> Result<Tape, AllocError>
        ensures { IfOk result (λ tape. tape ≡ self.now) }
    {
        Ok(Tape {
            steps: self.steps.clone()?,
            constants: self.constants.clone()?,
        })
    }
}

/// The steps of a list, as they stand in memory.
#[derive(Debug, Drop)]
pub struct Steps<'a> {
    packed: &'a [PackedStep],
    constants: &'a [Fx],
}

impl<'a> Model for Steps<'a> {
    ghost use Rattle.std.specs.Prelude.{List, map};
    ghost use Rattle.live_clauses.specs.declared.step.Step.{Step};

    ghost Value = { List Step };

    ghost use Rattle.live_clauses.specs.Packed.{unpacked};
    ghost use Rattle.live_clauses.specs.Steps.{IsTape};

    ghost view = { λ s. map (unpacked s.constants.now) s.packed.now };

    ghost invariant = { λ s. IsTape (map (unpacked s.constants.now) s.packed.now) };
}

impl<'a> Steps<'a> {
    // These steps, with the table of their constants.
    #[inline]
    pub(crate) fn from_packed(packed: &'a [PackedStep], constants: &'a [Fx]) -> Steps<'a>
        requires { IsTape (map (unpacked constants.now) packed.now) }
        ensures { result ≡ map (unpacked constants.now) packed.now }
    {
        Steps { packed, constants }
    }

    // The steps as they are kept, and the table of their constants.
    #[inline]
    pub(crate) fn packed(&self) -> (&[PackedStep], &[Fx])
        ensures steps { map (unpacked result.1.now) result.0.now ≡ self.now }
        ensures len { length result.0.now ≡ length self.now }
        ensures tape { IsTape self.now }
    {
        (self.packed, self.constants)
    }

    /// The same steps once more. A loop that reads its own of them keeps them in registers.
    #[inline]
    pub fn again(&self) -> Steps<'_>
        ensures steps { result ≡ self.now }
        ensures tape { IsTape self.now }
    {
        Steps {
            packed: self.packed,
            constants: self.constants,
        }
    }

    /// How many steps there are.
    #[inline]
    pub fn len(&self) -> u32
        ensures len { result ≡ length self.now }
        ensures tape { IsTape self.now }
    {
        let packed = self.packed;
        packed.len() as u32
    }

    /// The step at a place, whose operands stand before it.
    #[inline(always)]
    pub fn step(&self, at: u32) -> Step
        requires { at < length self.now }
        ensures step { slice_get self.now at ≡ Some result }
        ensures stands { IsStepAt at result }
    {
        let (packed, constants) = (self.packed, self.constants);
        packed[at as usize].unpack(constants)
    }

    /// Whether these are the same steps as others.
    pub fn same(&self, other: &Steps<'_>) -> bool
        ensures { IsTrue result ↔ (self.now ≡ other.now) }
    {
        same_steps(self.packed, self.constants, other.packed, other.constants)
    }
}

/// Whether two lists have the same steps.
pub fn same(a: &Tape, b: &Tape) -> bool
    ensures { IsTrue result ↔ (a.now ≡ b.now) }
{
    a.steps().same(&b.steps())
}
