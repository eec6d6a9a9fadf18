//! Meshes as text, in the ASCII form of PLY.
#![tactic(auto)]

mod digits;
mod header;
mod line;
mod ply;
mod ply_block;
mod point_texts;
mod room;
mod triples;

pub use header::HEADER;
pub use line::{FACE_LINE, VERTEX_LINE};
pub use ply::ply_text;
pub use ply_block::{BLOCK, PlyBlock};
pub use room::room_for;
