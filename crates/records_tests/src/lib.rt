//! Tests of the reader of what frames carry, over public calls: frames after the first path, byte by byte as the formats
//! say, and changes to them, each with the place that it breaks. They stand in a crate of their own, so that the reader's
//! crate is proved once.
#![tactic(auto)]

#[cfg(test)]
mod broken;
#[cfg(test)]
mod first_path;
#[cfg(test)]
mod owners;
#[cfg(test)]
mod state;
