//! Tests of what is drawn of a model, and of sessions in which models are edited and drawn.
#![tactic(auto)]

#[cfg(test)]
mod fixtures;
#[cfg(test)]
mod frames;
#[cfg(test)]
mod playing;
#[cfg(test)]
mod refusals;
#[cfg(test)]
mod rows;
#[cfg(test)]
mod sessions;
