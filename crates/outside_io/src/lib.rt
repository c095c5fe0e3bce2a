//! The outside of a program: files that it reads by name, and a place that it writes to.
//!
//! A program that is written over [`Inputs`] and [`Sink`] is proved for every outside that keeps
//! their contracts: for one in memory, which tells what it holds, and for real files and writers,
//! of whose content nothing is said. A call fails only where a count of faults rose, or where a
//! named file is not there.
#![tactic(auto)]

mod all_bytes;
mod call_list;
mod file_list;
mod in_memory;
mod real_files;
mod traits;

pub use all_bytes::{ReadFault, read_all, write_all};
pub use call_list::Calls;
pub use file_list::{FileItem, Files};
pub use in_memory::{MemoryInputs, MemorySink};
pub use real_files::{FileInputs, StreamSink};
pub use traits::{Failed, Inputs, Output, Sink};

/// Want of memory: the one answer that no clause ties to a cause.
pub type Memory = std::alloc::AllocError;
