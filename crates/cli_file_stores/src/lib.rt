//! Named files, and the sources and sinks of bytes. A file store has the machine's files or files in memory. A source
//! is read whole, and a sink tells whether it failed.
#![tactic(auto)]

mod byte_sums;
mod device;
mod file_reader;
mod file_store;
mod given_bytes;
mod given_sum;
mod log;
mod machine;
mod memory;
mod memory_reader;
mod outcome;
mod part_file;
mod places;
mod replace;
mod sink;
mod sums;
mod whole_source;

pub use byte_sums::{ByteSum, RunningSum, hex_digest, sum_of};
pub use device::DiskFileStore;
pub use file_reader::FileReader;
pub use file_store::{FileStore, FileStoreFault, MAX_FILE, ReadEnd};
pub use given_bytes::GivenBytes;
pub use given_sum::GivenSum;
pub use log::EventLog;
pub use machine::{Locking, Machine};
pub use memory::{MemoryFile, MemoryFileStore};
pub use memory_reader::MemoryReader;
pub use sink::{Sink, SinkFault, Writing};
pub use sums::{EventKind, EventSum, EventSums};
pub use whole_source::{WholeFault, read_whole};
