//! Views of a solid: where their samples lie, and how they are cut into boxes.
#![tactic(auto)]

mod axis_samples;
mod course;
mod index_box;
mod lattice;
mod laws;
mod place;
mod span;
mod view;

pub use axis_samples::AxisSamples;
pub use course::Course;
pub use index_box::{IndexBox, split};
pub use lattice::{Axis, Lattice};
pub use laws::{halves_part, ranges_hold};
pub use place::{raw_place, root, sample, samples_along};
pub use span::span_of;
pub use view::View;
