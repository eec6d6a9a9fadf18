//! Images of lists of steps, drawn by boxes: what the hull of a list decides over a box is drawn
//! whole, and undecided boxes are halved and evaluated over what is live there.
#![tactic(auto)]

mod band;
mod boxes;
mod drawing;
mod filling;
mod images;
mod laws;
mod leaf;
mod node;
mod old_lists;
mod old_tree;
mod painting;
mod picture;
mod pixels;
mod quad_tree;
mod row_source;
mod scan;

pub use images::{draw, draw_picture, redraw};
pub use laws::{frame_boxes_are_counted_once, frame_work_is_bounded, fresh_work_is_bounded};
pub use painting::rows;
pub use picture::Picture;
pub use pixels::image;
pub use quad_tree::QuadTree;
pub use row_source::RowSource;
