//! The text of the mesh of a grid, written straight from what is known of the grid.
#![tactic(auto)]

mod face_lines;
mod grid_pieces;
mod sided_cells;
mod text;
mod text_room;
mod vertex_lines;

pub use grid_pieces::GridPieces;
pub use text::grid_text_in;
pub use text_room::TextRoom;
