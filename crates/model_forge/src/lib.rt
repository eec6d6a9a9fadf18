//! Models of discs, each placed, sized and joined by numbers drawn from a seed.
#![tactic(auto)]

mod clauses;
mod disc;
mod forge;
mod label;
mod stream;

pub use forge::forge_model;
