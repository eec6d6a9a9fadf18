//! Contours: the outline of a solid at one height. The values of a plane grid are found by boxes, at the
//! cost of the outline alone.
#![tactic(auto)]

mod cell;
mod cell_filler;
mod contours;
mod corner_values;
mod filling;
mod flat;
mod gap;
mod gaps;
mod known_values;
mod laws;
mod planes;
mod seen;
mod sides;

pub use contours::contour;
pub use laws::{borders_are_outside, contour_work_is_bounded, flat_view};
pub use planes::{PlaneTable, plane_table};
