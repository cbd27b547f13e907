//! Tests of the crates under the objects, over their public calls. They stand in a crate of their own, so that each of
//! those crates is proved once, and these tests beside the crates above.
#![tactic(auto)]

#[cfg(test)]
mod history_text;
#[cfg(test)]
mod hosts;
#[cfg(test)]
mod refusals;
#[cfg(test)]
mod scripts;
#[cfg(test)]
mod values;
