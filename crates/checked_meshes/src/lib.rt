//! The texts of meshes, read again: each says the very mesh of which it is made, and where that is the
//! mesh of a model, its faces are found closed.
#![tactic(auto)]

mod laws;

pub use laws::{mesh_texts_check, written_meshes_are_read};
