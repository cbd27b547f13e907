//! The chain of chunk frames, read from any bytes as the definitions of records read it.

mod chunks;
mod element;
mod front;
mod order;
mod sheet;

pub(crate) use crate::chain::chunks::read_chunks;
pub use crate::chain::sheet::{ChunkSheet, ElementRead};
