//! Boxes, the lists of steps that they receive, and the chains of boxes that hold a sample.
#![tactic(auto)]

mod asked_box;
mod desk;
mod laws;
mod leaves;
mod outcome;
mod places;
mod rows;
mod traced_box;
mod workspace;

pub use asked_box::AskedBox;
pub use desk::{Desk, make_rows};
pub use laws::{
    boxes_are_counted_once, chains_go_on, layers_hold, new_boxes_are_counted_once,
    redrawn_work_adds_up, samples_are_told, tested_work_adds_up, work_adds_up,
};
pub use leaves::{LEAF, is_long};
pub use outcome::Outcome;
pub use places::Places;
pub use traced_box::TracedBox;
