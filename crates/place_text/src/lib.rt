//! The places of images as text.
#![tactic(auto)]

mod place;
#[cfg(test)]
mod tests;

pub use place::place_text;
