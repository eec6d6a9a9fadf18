//! A solid as a list of named clauses, and the edits that change it.
#![tactic(auto)]

mod change;
mod clause;
mod clause_ref;
mod edit;
mod edit_ref;
mod edited_model;
mod editing;
mod form;
mod form_ref;
mod inverting;
mod key;
mod label;
mod laws;
mod model;
mod model_builder;
mod name;
mod numbers;
mod placed_form;
mod push_fault;
mod refusal;
mod reversal;
mod reverting;
mod row;
mod table;
mod users;
mod uses;

pub use clause::Clause;
pub use clause_ref::ClauseRef;
pub use edit::{Edit, EditFault};
pub use edit_ref::EditRef;
pub use edited_model::EditedModel;
pub use form::Form;
pub use form_ref::{ArgsRef, FormRef};
pub use laws::{edits_are_taken_back, edits_give_models, plain_values};
pub use model::Model;
pub use model_builder::ModelBuilder;
pub use name::{Name, NameFault};
pub use push_fault::PushFault;
