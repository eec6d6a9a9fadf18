//! Contours as text: the data of the paths of an SVG picture.
#![tactic(auto)]

mod laws;
mod path;
mod vertex_text;

pub use laws::{contours_have_paths, contours_lie_apart};
pub use path::path_text;
