//! The modeller's numbers: whole numbers of 2^-32 within a fixed range, their operations, how they
//! are read and written, and the tally of work.
#![tactic(auto)]

mod arithmetic;
mod crossing;
mod digits;
mod fixed;
mod laws;
mod number_text;
mod numeral;
mod op_names;
mod operation;
mod quotient;
mod root;
mod rounding;
mod shading;
mod tally;
mod text_before;

pub use arithmetic::{apply, corner};
pub use crossing::cut;
pub use digits::read_digits;
pub use fixed::{Fx, border, is_inside, le, lt, raw_range};
pub use laws::{
    clamps, floors, number_texts, quotients, raw_results, roots, spelled_values,
    steps_read_their_operands, tallies_add_up, whole_numbers,
};
pub use number_text::{write_number, write_raw};
pub use numeral::{BadNumeral, read_numeral, read_raw};
pub use op_names::{op_name, read_op};
pub use operation::{Op, arity};
pub use shading::light;
pub use tally::{Tally, count_points, count_span};
pub use text_before::{LONGEST_NUMBER, byte_before, number_before};
