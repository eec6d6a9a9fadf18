//! Tests of cells and their triangles, of meshes and of contours, of their texts, and of meshes that are read.
#![tactic(auto)]

#[cfg(test)]
mod cells;
#[cfg(test)]
mod contours;
#[cfg(test)]
mod files;
#[cfg(test)]
mod meshes;
#[cfg(test)]
mod places;
#[cfg(test)]
mod texts;
