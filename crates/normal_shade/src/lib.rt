//! Forward-mode differentiation of lists of steps at a point, by the rules for sums, products and the
//! rest, what holds of it where a list is pruned, and height maps that are shaded by it.
#![tactic(auto)]

mod branches;
mod dual;
mod dual_lanes;
mod gradients;
mod laws;
mod lighting;
mod picture;
mod scratch;
mod shading;
mod slopes;
mod top_sample;
mod tops;

pub use dual::Dual;
pub use gradients::gradient;
pub use laws::{choice_taken, live_lists_keep_slopes, shade_work_is_bounded};
pub use picture::shade;
