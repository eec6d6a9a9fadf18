//! Images and samples, and their bytes as Netpbm PGM in the P5 form.
#![tactic(auto)]

mod head;
mod pgm;
mod pixel_grid;
mod samples;

pub use head::{pgm_head, raster_length};
pub use pgm::pgm_text;
pub use pixel_grid::PixelGrid;
pub use samples::samples_text;
