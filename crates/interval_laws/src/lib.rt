//! The laws of spans: what the hull of an operation has to do with its results, and what a choice
//! has.
#![tactic(auto)]

mod laws;

pub use laws::{attained, choice_kept, inclusion, laws_of_spans, shrinking};
