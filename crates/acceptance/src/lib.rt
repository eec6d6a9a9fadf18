//! Tests of whole runs: words and texts that are refused, what fails, limits, checks, and models that are made.
#![tactic(auto)]

#[cfg(test)]
mod checks;
#[cfg(test)]
mod faults;
#[cfg(test)]
mod forges;
#[cfg(test)]
mod limits;
#[cfg(test)]
mod refusals;
#[cfg(test)]
mod sure;
#[cfg(test)]
mod texts;
#[cfg(test)]
mod words;
