//! Tests of whole runs that replay scripts: frames, edits that are refused and taken back, and what they cost.
#![tactic(auto)]

#[cfg(test)]
mod edited_meshes;
#[cfg(test)]
mod failing_writes;
#[cfg(test)]
mod replays;
#[cfg(test)]
mod scripts;
#[cfg(test)]
mod undos;
