//! Tests of sources and sinks, of numbers, of their operations and texts, and of ranges of numbers.
#![tactic(auto)]

#[cfg(test)]
mod numbers;
#[cfg(test)]
mod outside;
#[cfg(test)]
mod spans;
