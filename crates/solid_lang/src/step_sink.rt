// What takes the steps of a solid.
ghost use Rattle.std.specs.Prelude.{◌≡◌, ◌+◌, ◌≤◌, ◌++◌, ℕ, List, length, IfOk, OnOk};
ghost use Rattle.solid_lang.specs.Placing.{Each, Fits};
ghost use Rattle.solid_lang.specs.declared.step.Step.{Step};

use crate::step::Step;
use std::alloc::AllocError;

/// What takes the steps of a solid in their order, a few at a time.
pub(crate) trait StepSink {
    /// Whether it takes the step that stands at a place next.
    ghost takes: { Self → ℕ → Type 0 };

    /// Whether the second is what the first becomes by steps, of which the first stands at a place.
    ghost grows: { Self → Self → ℕ → List Step → Type 0 };

    /// Takes steps of which the first stands at a place, and gives the place behind the last.
    /// AllocError: memory was refused.
    fn put(&mut self, place: u32, steps: &[Step]) -> Result<u32, AllocError>
        requires next { takes self.old place }
        requires few { length steps.now ≤ 11 }
        requires places { place + length steps.now ≤ 65535 }
        requires fit { Each Fits place steps.now }
        ensures grows { OnOk result (grows self.old self.new place steps.now) }
        ensures end { IfOk result (λ end. end ≡ place + length steps.now) }
        ensures next { OnOk result (takes self.new (place + length steps.now)) };

    /// Steps that are put one behind the other are put.
    ghost adds_up: { (a b c : Self) (n m : ℕ) (xs ys : List Step) → n + length xs ≡ m
        → grows a b n xs → grows b c m ys → grows a c n (xs ++ ys) };
}
