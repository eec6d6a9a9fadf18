//! Scripts: the text of a model, a mark, and then commands, one a line.
#![tactic(auto)]

mod command;
mod commands;
mod draw;
mod edit_line;
mod keyword;
mod laws;
mod line;
mod mark;
mod script;
mod script_fault;
mod script_reason;

pub use command::Command;
pub use commands::Commands;
pub use laws::{
    draws_may_be_drawn, inputs_are_split, read_scripts_are_commands, reasons_are_lowest,
    scripts_are_exact,
};
pub use mark::split_input;
pub use script::read_script;
pub use script_fault::ScriptFault;
pub use script_reason::ScriptReason;
