// A step as a list keeps it.
ghost use Rattle.std.specs.Prelude.{◌≡◌, ◌<◌, ◌≤◌, ℤ, true, List, length, slice_index, if◌then◌else◌};
ghost use Rattle.fixed_ops.specs.Arity.{arity_of};
ghost use Rattle.live_clauses.specs.Live.{renumbered};
ghost use Rattle.live_clauses.specs.Packed.{first_of, is_constant, unpacked};

use crate::Step;
use fixed_ops::{Fx, Op, arity};

// A step in 6 bytes: a place in a list is at most 65,535. The number of a constant stands in a
// table, and `a` is its place there.
#[derive(Clone, Copy, Debug)]
pub(crate) struct PackedStep {
    pub(crate) op: Op,
    pub(crate) a: u16,
    pub(crate) b: u16,
}

impl PackedStep {
    // What memory holds that no list is in.
    #[inline]
    pub(crate) fn blank() -> PackedStep {
        PackedStep {
            op: Op::X,
            a: 0,
            b: 0,
        }
    }

    // How a step is kept whose number has this place in the table where it is a constant.
    #[inline]
    pub(crate) fn pack(step: Step, place: u16) -> PackedStep
        requires a { step.a ≤ 65535 }
        requires b { step.b ≤ 65535 }
        ensures op { result.op ≡ step.op }
        ensures a { result.a ≡ (if is_constant step.op then place else step.a) }
        ensures b { result.b ≡ step.b }
    {
        PackedStep {
            op: step.op,
            a: match step.op {
                Op::Const => place,
                _ => step.a as u16,
            },
            b: step.b as u16,
        }
    }

    // The step that it keeps. The table is read for a constant alone, so that a match on the
    // operation that follows reads it in its own arm.
    #[inline(always)]
    pub(crate) fn unpack(self, constants: &[Fx]) -> Step
        requires { is_constant self.op ≡ true → self.a < length constants.now }
        ensures { result ≡ unpacked constants.now self }
    {
        // Nothing is left to do for the other operations, so the two matches can become one.
        let (a, b) = (u32::from(self.a), u32::from(self.b));
        match self.op {
            Op::Const => Step {
                op: Op::Const,
                a: 0,
                b,
                value: constants[self.a as usize],
            },
            op => Step {
                op,
                a,
                b,
                value: Fx::from_raw(0),
            },
        }
    }

    // Writes the step with the new numbers of its operands. A constant keeps the place of its number.
    #[inline(always)]
    pub(crate) fn renumber_to(&self, numbers: &[u16], new: &mut PackedStep)
        requires a { self.now.a < length numbers.now }
        requires b { self.now.b < length numbers.now }
        requires none { arity_of self.now.op ≡ 0 → first_of self.now ≡ 0 }
        ensures { (constants : List ℤ) → unpacked constants new.new
            ≡ renumbered (λ place. slice_index numbers.now place) (unpacked constants self.now) }
    {
        // Both numbers are read, so that no branch goes by the operation.
        let operands = arity(self.op);
        let first = numbers[self.a as usize];
        let second = numbers[self.b as usize];
        new.op = self.op;
        new.a = if operands > 0 { first } else { self.a };
        new.b = kept_if(operands > 1, second);
    }
}

// A number where it is to be kept, or else 0.
#[inline(always)]
pub(crate) fn kept_if(keep: bool, number: u16) -> u16
    ensures { result ≡ (if keep then number else 0) }
{
    if keep { number } else { 0 }
}
