//! Texts of models: how one is read, line by line, why one is refused, and how one is written.
#![tactic(auto)]

mod comments;
mod form;
mod form_defect;
mod form_fault;
mod laws;
mod line;
mod line_end;
mod lines;
mod operands;
mod read_error;
mod reader;
mod text_fault;
mod text_reason;
mod token;
mod tokens;
mod writer;
mod written_form;

pub use comments::Comments;
pub use form::{find_form, lent_form, read_form};
pub use form_defect::FormDefect;
pub use form_fault::FormFault;
pub use laws::{
    given_lines_stand, line_reasons_are_lowest, lines_and_tokens_are_exact, read_texts_are_models,
    reading_is_exact, texts_begin_with_lines, written_models_are_read,
};
pub use line::Line;
pub use line_end::after_line;
pub use lines::Lines;
pub use read_error::ReadError;
pub use reader::read_model;
pub use text_fault::TextFault;
pub use text_reason::TextReason;
pub use token::{begins_comment, next_token};
pub use tokens::Tokens;
pub use writer::write_model;
