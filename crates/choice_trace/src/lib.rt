//! What evaluates a list of steps: one loop over any domain of elements that stand for numbers, and
//! one that finds the hulls of a list over a region together with its choices.
#![tactic(auto)]

mod domain;
mod evaluator;
mod halves;
mod inputs;
mod lanes;
mod laws;
mod operands;
mod tracer;

pub use domain::Domain;
pub use evaluator::evaluate;
pub use halves::{Halves, trace_halves};
pub use inputs::Inputs;
pub use lanes::evaluate_lanes;
pub use laws::{hulls_of_steps, traces_are_right, work_of_steps};
pub use tracer::{trace, trace_steps};
