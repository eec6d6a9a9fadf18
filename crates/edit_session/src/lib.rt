//! Sessions: models that are edited and drawn, frame after frame.
#![tactic(auto)]

mod laws;
mod session;

pub use laws::{frames_take_no_more, opening_stands, refusals_begin_anew};
pub use session::Session;
