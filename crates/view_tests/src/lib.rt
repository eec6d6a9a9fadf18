//! Tests of views, of the places of their samples, of the words that set them, and of the bytes of images.
#![tactic(auto)]

#[cfg(test)]
mod images;
#[cfg(test)]
mod places;
#[cfg(test)]
mod words;
