//! Bytes and files that several tests read.
use scasp_io::{Bytes, CallList, MemFile, MemFileList, MemFiles, Memory};
use scasp_test_samples::one;
use std::alloc::{AllocError, Global};
use std::hash::RandomState;

/// So many bytes, each other than the one before.
pub(crate) fn sample(alloc: Global, length: u64) -> Result<Vec<u8>, AllocError> {
    let mut bytes = Vec::new(alloc);
    let mut next = 7u8;
    for _ in 0..length {
        bytes.push(next)?;
        next = next.wrapping_add(13);
    }
    Ok(bytes)
}

/// One file by the name `p`.
pub(crate) fn one_file(alloc: Global, bytes: &[u8]) -> Result<MemFileList, Memory> {
    let name = Bytes::from(Vec::from_slice(alloc, b"p")?);
    let bytes = Bytes::from(Vec::from_slice(alloc, bytes)?);
    one(alloc, MemFile { name, bytes })
}

/// One file by the name `p`, of which the read of this number fails.
pub(crate) fn failing_file(
    alloc: Global,
    bytes: &[u8],
    read: u64,
    keys: RandomState,
) -> Result<MemFiles, Memory> {
    let calls: CallList = one(alloc, read)?;
    Ok(MemFiles::new(one_file(alloc, bytes)?, calls, keys))
}
