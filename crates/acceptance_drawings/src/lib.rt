//! Tests of whole runs that draw: images, height maps, shaded ones, contours, meshes, and models of solids.
#![tactic(auto)]

#[cfg(test)]
mod contours;
#[cfg(test)]
mod counts;
#[cfg(test)]
mod heights;
#[cfg(test)]
mod meshes;
#[cfg(test)]
mod pictures;
#[cfg(test)]
mod refusals;
#[cfg(test)]
mod shades;
#[cfg(test)]
mod solids;
#[cfg(test)]
mod uneven_meshes;
