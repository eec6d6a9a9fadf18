//! Cells of a grid cut into tetrahedra, and the triangles that part the inside corners of a
//! tetrahedron from the outside ones.
#![tactic(auto)]

mod cell;
mod cell_list;
mod corner;
mod edge_key;
mod grid_size;
mod laws;
mod pattern;
mod ring;
mod tetrahedron;
mod triple;

pub use cell_list::{CellList, CellValues};
pub use corner::corner_of;
pub use edge_key::EdgeKey;
pub use grid_size::GridSize;
pub use laws::{
    arrangements_are_positive, edges_part_the_corners, keys_are_ordered, mixed_cells_suffice,
    signs_are_determinants, triangles_have_vertices, vertices_are_mixed_edges,
};
pub use ring::around;
pub use tetrahedron::triangles;
pub use triple::Triple;
