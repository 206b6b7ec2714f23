ghost use Rattle.std.specs.Prelude.{◌≡◌, ℕ, ◌<◌, ◌≤◌, ◌-◌, List, length, min, is_err, IfOk, OnErr, IfSome};
ghost use Rattle.std.specs.Option.{option_copied};
ghost use Rattle.scasp_io.specs.Counts.{Rose};
ghost use Rattle.scasp_io.specs.Bytes.{Fills, Reads, ReadsMost};
ghost use Rattle.scasp_io.specs.Lookup.{bytes_of};
ghost use Rattle.scasp_io.specs.MemoryFiles.{after_read, is_refused};

use crate::errors::Failed;
use crate::lists::{Bytes, CallList, MemFile, MemFileList};
use crate::outside::Files;
use std::hash::RandomState;

/// Files in memory, for tests. A read fails where its number, the first being 1, is among the
/// failing ones, and where no file has the name; each failure is counted as a fault of every name.
#[derive(Debug, Drop)]
pub struct MemFiles {
    pub files: MemFileList,
    /// The numbers of the calls that fail.
    pub failing: CallList,
    /// How many calls there were, at most 2^64 - 1.
    pub calls: u64,
    /// How many of them failed, at most 2^64 - 1.
    pub faults: u64,
    /// The keys that are told.
    pub keys: RandomState,
}

impl MemFiles {
    pub fn new(files: MemFileList, failing: CallList, keys: RandomState) -> MemFiles
        ensures { result ≡ record { files = files; failing = failing; calls = 0; faults = 0; keys = keys } }
    {
        MemFiles {
            files,
            failing,
            calls: 0,
            faults: 0,
            keys,
        }
    }
}

impl Files for MemFiles {
    ghost told = { λ files name. bytes_of files.files name };

    ghost faults = { λ files _. files.faults };

    /// Reads as many bytes as are there and as the buffer holds.
    fn read(&mut self, name: &str, at: u64, buffer: &mut [u8]) -> Result<usize, Failed>
        ensures bound { IfOk result (λ count. count ≤ length buffer.new) }
        ensures fills { IfOk result (λ count. Fills (bytes_of self.old.files name.now) at buffer.new count) }
        ensures most { IfOk result (λ count. ReadsMost (bytes_of self.old.files name.now) at buffer.new count) }
        ensures refused { is_err result ≡ is_refused self.old name.now }
        ensures after { self.new ≡ after_read self.old (is_err result) }
        ensures cause { OnErr result (Rose self.old.faults self.new.faults) }
        ensures counts { self.old.faults ≤ self.new.faults }
    {
        self.calls = self.calls.saturating_add(1);
        if !self.failing.as_slice().contains(&self.calls) {
            if let Some(bytes) = find_bytes(self.files.as_slice(), name) {
                return Ok(copy_from(bytes.as_slice(), at, buffer));
            }
        }
        self.faults = self.faults.saturating_add(1);
        Err(Failed)
    }

    fn hash_keys(&self) -> RandomState {
        self.keys
    }
}

/// The bytes of the first file with the name.
pub(crate) fn find_bytes<'a>(files: &'a [MemFile], name: &str) -> Option<&'a Bytes>
    ensures { option_copied result ≡ bytes_of files.now name.now }
{
    files
        .iter()
        .find(|file| file.name.as_slice() == name.as_bytes())
        .map(|file| &file.bytes)
}

/// Copies the bytes from `at` on to the front of the buffer, as many as it holds.
pub(crate) fn copy_from(all: &[u8], at: u64, buffer: &mut [u8]) -> usize
    ensures reads { Reads all.now at buffer.new result }
    ensures most { result ≡ min (length all.now - at) (length buffer.new) }
{
    let start = all.len().min(at as usize);
    let count = (all.len() - start).min(buffer.len());
    buffer[..count].copy_from_slice(&all[start..start + count]);
    count
}
