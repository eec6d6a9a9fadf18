//! Meshes of triangles between the inside and the outside of a solid, and where their vertices
//! lie.
#![tactic(auto)]

mod building;
mod counts;
mod entry;
mod face;
mod face_walk;
mod faces;
mod grid_places;
mod laws;
mod mesh;
mod numbering;
mod place;
mod ranks;
mod shape;
mod shape_room;
mod shapes;
mod sided_cell;
mod sides;
mod vertex;
mod vertices;

pub use building::{build, build_from};
pub use face::Face;
pub use face_walk::FaceWalk;
pub use faces::FACES;
pub use grid_places::GridPlaces;
pub use laws::{cells_make_meshes, meshes_are_sound};
pub use mesh::Mesh;
pub use place::vertex_raw;
pub use shape_room::ShapeRoom;
pub use sided_cell::SidedCell;
pub use vertex::Vertex;
pub use vertices::cell_vertices;
