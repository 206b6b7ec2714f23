ghost use Rattle.std.specs.Prelude.{◌≡◌, ℕ, ◌<◌, ◌≤◌, List, length, Some, None, IfOk, IsOk, IsErrOf};
ghost use Rattle.scasp_io.specs.Lookup.{bytes_or_none};

use crate::errors::{Failed, ReadErr, SinkFault};
use crate::lists::MemFileList;
use crate::memory_files::{copy_from, find_bytes};
use crate::outside::{Files, Sink};
use crate::whole::{read_file, write_all};
use std::alloc::Global;
use std::hash::RandomState;

/// Files in memory that never fail. A name that no file has stands for no bytes.
#[derive(Debug, Drop)]
pub struct SureFiles {
    pub files: MemFileList,
    /// The keys that are told.
    pub keys: RandomState,
}

impl SureFiles {
    pub fn new(files: MemFileList, keys: RandomState) -> SureFiles
        ensures { result ≡ record { files = files; keys = keys } }
    {
        SureFiles { files, keys }
    }
}

impl Files for SureFiles {
    ghost told = { λ files name. Some (bytes_or_none files.files name) };

    ghost faults = { λ _ _. 0 };

    fn read(&mut self, name: &str, at: u64, buffer: &mut [u8]) -> Result<usize, Failed> {
        match find_bytes(self.files.as_slice(), name) {
            Some(bytes) => Ok(copy_from(bytes.as_slice(), at, buffer)),
            None => Ok(0),
        }
    }

    fn hash_keys(&self) -> RandomState {
        self.keys
    }
}

/// A sink that takes every byte, keeps none and never fails.
#[derive(Clone, Copy, Debug, PartialEq, Eq)]
pub struct SureSink;

impl Sink for SureSink {
    ghost taken = { λ _. None };

    ghost faults = { λ _. 0 };

    fn write(&mut self, bytes: &[u8]) -> Result<usize, Failed>
        ensures { result ≡ Ok (length bytes.now) }
    {
        Ok(bytes.len())
    }
}

/// Reads a whole file where no read fails: the answer is never `Fault`.
pub fn read_sure(
    alloc: Global,
    files: &mut SureFiles,
    name: &str,
    limit: u64,
) -> Result<Vec<u8>, ReadErr>
    ensures no_fault { ¬ IsErrOf result ReadErr.Fault }
    ensures whole { IfOk result (λ all. all.items ≡ bytes_or_none files.old.files name.now) }
    ensures limit { IfOk result (λ all. length all.items ≤ limit) }
    ensures too_long { IsErrOf result ReadErr.TooLong → limit < length (bytes_or_none files.old.files name.now) }
    ensures stays { (other : List ℕ) → bytes_or_none files.new.files other ≡ bytes_or_none files.old.files other }
{
    read_file(alloc, files, name, limit)
}

/// Writes all the bytes where no write fails: the answer is always `Ok`.
pub fn write_sure(out: &mut SureSink, bytes: &[u8]) -> Result<(), SinkFault>
    ensures { IsOk result }
{
    write_all(out, bytes)
}
