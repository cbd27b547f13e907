//! Tests of `fdt_blob`, over its public calls. They stand in a crate of their own, so that it and `fdt_tool` are proved
//! once.
#![tactic(auto)]

#[cfg(test)]
mod blobs;
