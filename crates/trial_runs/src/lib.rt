//! Runs over an input and outputs in memory, for tests: how a run ends, beside how it should.
#![tactic(auto)]

mod calls;
mod disc;
mod ran;
mod sure;
mod trial;

pub use calls::Calls;
pub use disc::{DISC, DISC_PICTURE, THREE_BY_THREE};
pub use ran::{Ending, Held, Ran, Rest, Work, Written};
pub use trial::Trial;
