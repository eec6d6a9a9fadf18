//! Contours of a plane grid as closed loops: the segments that part the inside points of the grid
//! from the outside ones, followed from vertex to vertex.
#![tactic(auto)]

mod following;
mod laws;
mod left_triangle;
mod linking;
mod loops;
mod numbering;
mod plane_vertex;
mod signs;
mod successors;

pub use laws::{
    contours_are_closed, inside_is_left, loops_are_long, one_contour, one_segment_each_way,
};
pub use linking::link_loops;
pub use loops::Loops;
pub use plane_vertex::PlaneVertex;
