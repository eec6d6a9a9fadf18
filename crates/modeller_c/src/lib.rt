//! One run of the modeller, for callers in C.
#![tactic(auto)]

mod gathered;
mod ran;
mod rooms;
mod run;
mod words;

pub use ran::Ran;
pub use run::modeller_run;
