//! The words that ask for work: a verb and its settings, and the job that they make.
#![tactic(auto)]

mod forge;
mod given;
mod job;
mod kind;
mod laws;
mod name;
mod reads;
mod setting;
mod settings;
mod verb;
mod word_fault;
mod words;

pub use forge::Forge;
pub use job::Job;
pub use laws::{jobs_hold, word_reasons_are_lowest, words_are_exact};
pub use reads::Reads;
pub use settings::Settings;
pub use verb::Verb;
pub use word_fault::{WordFault, WordReason};
pub use words::read_words;
