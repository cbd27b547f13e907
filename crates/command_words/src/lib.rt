//! Reads the words of the command line: what a list of words asks the program to do.
#![tactic(auto)]

mod given;
mod number;
#[cfg(test)]
mod tests;
mod words;

pub use words::{Request, asked};
