//! Tests of `turns_table`, over its public calls. They stand in a crate of their own, so that it and `turns_bench` are
//! proved once.
#![tactic(auto)]

#[cfg(test)]
mod turns;
