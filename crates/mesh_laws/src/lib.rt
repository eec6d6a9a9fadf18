//! What holds of the mesh of each grid whose outermost layer is outside.
#![tactic(auto)]

mod laws;

pub use laws::{edges_paired, one_cycle, places_distinct, separates};
