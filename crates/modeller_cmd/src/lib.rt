//! The modeller's one call: words and an input in, pictures or texts and at most one note line out.
#![tactic(auto)]

mod asking;
mod bad_text;
mod checking;
mod command;
mod count;
mod drawing;
mod forge;
mod frame;
mod image;
mod laws;
mod line;
mod names;
mod note;
mod pending;
mod refusal;
mod replay;
mod send;
mod solid;
mod status;
mod stop;
mod sure;
mod task;

pub use command::run;
pub use laws::{checks_are_exact, undos_lead_back};
pub use status::Status;
pub use sure::run_surely;
