//! Meshes in the ASCII form of PLY, checked: what a file says, or the line on which it is refused and
//! why; whether its faces are closed and a manifold, or the first thing that breaks it; and the one
//! line that reports this.
#![tactic(auto)]

mod arc;
mod buckets;
mod checking;
mod degrees;
mod faces;
mod fault;
mod filling;
mod finding;
mod header;
mod header_line;
mod laws;
mod mesh_faults;
mod neighbours;
mod ply_fault;
mod ply_file;
mod ply_reason;
mod reader;
mod reporting;
mod rounds;
mod stage;
mod vertices;
mod words;

pub use checking::verdict;
pub use finding::Finding;
pub use laws::{
    files_are_small, mesh_checks, ply_reading_is_exact, reports_are_exact, verdicts_are_exact,
};
pub use ply_fault::PlyFault;
pub use ply_file::PlyFile;
pub use ply_reason::PlyReason;
pub use reader::read_ply;
pub use reporting::report;
