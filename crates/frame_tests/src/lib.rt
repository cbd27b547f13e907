//! Tests of the crates of frames, over their public calls. They stand in a crate of their own, so that each of those
//! crates, and the programs that time them, is proved once.
#![tactic(auto)]

#[cfg(test)]
mod buddies;
#[cfg(test)]
mod frames;
#[cfg(test)]
mod images;
#[cfg(test)]
mod scratch;
