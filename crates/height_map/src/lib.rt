//! Height maps of lists of steps, drawn by boxes: which sample of each column that is inside lies
//! nearest to the viewer, who looks down along z.
#![tactic(auto)]

mod column;
mod columns;
mod drawing;
mod laws;
mod layer;
mod leaf;
mod top_map;

pub use laws::height_work_is_bounded;
pub use top_map::{TopMap, heights};
