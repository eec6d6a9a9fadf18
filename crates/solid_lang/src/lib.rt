//! Solids written as nested forms: how a text of one is read, why one is refused, and the model that
//! one is compiled to.
#![tactic(auto)]

mod axes;
mod clause_push;
mod compiled_laws;
mod compiler;
mod count;
mod form;
mod form_steps;
mod judgement;
mod laws;
mod lines;
mod model;
mod numbered_tokens;
mod reader;
mod solid;
mod solid_fault;
mod solid_reason;
mod step;
mod step_sink;
mod text;
mod translating;
mod want;
mod wants;

pub use compiled_laws::{compiled_solids_are_models, compiled_solids_keep_values};
pub use judgement::judge;
pub use laws::{
    solid_judging_is_exact, solid_reading_is_exact, token_reasons_are_lowest, translation_is_exact,
};
pub use model::compile;
pub use reader::{read_short_solid, read_solid};
pub use solid::Solid;
pub use solid_fault::SolidFault;
pub use solid_reason::SolidReason;
pub use text::solid_text;
pub use translating::translate;
