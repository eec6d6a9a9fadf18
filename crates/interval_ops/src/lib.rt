//! Spans of the modeller's numbers: what an operation makes of two ranges, which operand of a
//! minimum or a maximum is the result all over them, and where a solid is decided.
#![tactic(auto)]

mod choice;
mod decision;
mod ends;
mod hull;
mod laws;
mod region;
mod span;

pub use choice::{Choice, choose};
pub use decision::decided;
pub use hull::span_apply;
pub use laws::{hull_counts, hulls};
pub use region::Region;
pub use span::Span;
