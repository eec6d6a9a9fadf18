//! Descents by boxes: a tape is traced over a box and pruned for its children, and a visitor says what is
//! done where a box is decided or no longer split.
#![tactic(auto)]

mod children;
mod descent;
mod found;
mod plan;
mod visitor;
mod wanted;

pub use descent::descend;
pub use found::Found;
pub use plan::{Border, Order, Plan};
pub use visitor::Visitor;
