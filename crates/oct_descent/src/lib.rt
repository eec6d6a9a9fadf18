//! Cells of a grid, found by boxes: which of them have both an inside and an outside corner, with
//! the values of their corners, at the cost of the surface alone.
#![tactic(auto)]

mod all_boxes;
mod begun_box;
mod boxes;
mod corner_values;
mod descent;
mod filling;
mod gap;
mod gaps;
mod grid_values;
mod grids;
mod laws;
mod listing;
mod oct_tree;
mod old_box;
mod old_boxes;
mod seen;
mod split_box;
mod taking;

pub use grids::{CellGrid, cell_grid};
pub use laws::{
    grid_work_is_bounded, grids_are_bordered, grids_hold, layers_have_the_cells, mesh_spans_add_up,
    meshes_after_add_up, new_boxes_are_counted_once, reached_boxes_are_counted_once, ways_go_on,
};
pub use listing::cell_list;
pub use oct_tree::{OctTree, cells, recells};
