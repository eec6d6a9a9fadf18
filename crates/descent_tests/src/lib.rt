//! Tests that cross crates below whole runs: lists of steps, shortened, evaluated, differentiated and traced, the
//! shading of their height maps, and the grids of their meshes.
#![tactic(auto)]

#[cfg(test)]
mod grids;
#[cfg(test)]
mod lists;
#[cfg(test)]
mod rooms;
#[cfg(test)]
mod shades;
#[cfg(test)]
mod shortened;
#[cfg(test)]
mod slopes;
#[cfg(test)]
mod steps;
#[cfg(test)]
mod traces;
