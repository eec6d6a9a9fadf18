//! Tests of models and of the edits that change them, of models, scripts and solids that are read, and of models
//! that are made from a seed.
#![tactic(auto)]

#[cfg(test)]
mod changes;
#[cfg(test)]
mod compiled;
#[cfg(test)]
mod discs;
#[cfg(test)]
mod edited;
#[cfg(test)]
mod models;
#[cfg(test)]
mod names;
#[cfg(test)]
mod scripts;
#[cfg(test)]
mod solids;
#[cfg(test)]
mod starts;
#[cfg(test)]
mod texts;
#[cfg(test)]
mod walks;
