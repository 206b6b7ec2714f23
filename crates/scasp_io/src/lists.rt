//! Lists of bytes, of calls and of files.
use scasp_list::Sequence;

/// A list of bytes.
pub type Bytes = Sequence<u8>;

/// A list of numbers of calls, the first call being number 1.
pub type CallList = Sequence<u64>;

/// A list of files in memory.
pub type MemFileList = Sequence<MemFile>;

/// A file in memory: its name and its bytes.
#[derive(Debug, Drop)]
pub struct MemFile {
    pub name: Bytes,
    pub bytes: Bytes,
}
