//! Bytes from and to the outside: sources, sinks and a host that opens them, with meanings that contracts can
//! cite, in memory and over the system.
#![tactic(auto)]

pub mod host;
pub mod mem_host;
pub mod memory;
pub mod sink;
pub mod source;
pub mod system;

pub use host::{Host, Way, put_all};
pub use mem_host::MemHost;
pub use memory::{MemSink, MemSource};
pub use sink::{Sink, write_all};
pub use source::{ReadError, Source, read_all};
pub use system::{FileSink, FileSource, SystemHost};
