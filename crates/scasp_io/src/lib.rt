//! The outside of the solver: where bytes are read from and written to, each with a count of its
//! faults, whole reads and writes over it, and implementations in memory.
#![tactic(auto)]

mod errors;
mod lists;
mod memory_files;
mod memory_sink;
mod outside;
mod sure;
mod whole;

pub use errors::{Failed, OutputErr, ReadErr, SinkFault};
pub use lists::{Bytes, CallList, MemFile, MemFileList};
pub use memory_files::MemFiles;
pub use memory_sink::MemSink;
pub use outside::{Files, Sink};
pub use scasp_list::Memory;
pub use sure::{SureFiles, SureSink, read_sure, write_sure};
pub use whole::{read_file, write_all};
