//! What can be drawn of a model over a view: its image, its height map, plain and shaded, its mesh, its
//! contour and its text.
#![tactic(auto)]

mod drawn;
mod frame;
mod height;
mod laws;
mod mesh;
mod paths;
mod redrawn;
mod remeshed;
mod render;
mod shading;

pub use drawn::Drawn;
pub use frame::Frame;
pub use height::height_text;
pub use laws::{contour_texts_are_closed, frames_add_up};
pub use mesh::{mesh_texts_are_sound, solid_mesh};
pub use paths::contour_paths;
pub use redrawn::redraw_image;
pub use remeshed::{mesh_text_in, redraw_mesh};
pub use render::{draw_image, image_text};
pub use shading::shade_pixels;
