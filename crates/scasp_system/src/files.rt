//! Files that are read one after another, each kept open while it is read.
ghost use Rattle.std.specs.Prelude.{◌≡◌, ◌≤◌, ℕ, List, drop, length, Some, IfOk, OnOk, string_bytes};
ghost use Rattle.std.specs.Option.{ForSome};
ghost use Rattle.scasp_io.specs.Bytes.{Fills};
ghost use Rattle.std.specs.Coded.{Π_prop, →_prop};
ghost use Rattle.scasp_system.specs.Standing.{StandsAt, StandsAt-prop};

use crate::opener::Opener;
use crate::retrying::read_retrying;
use scasp_io::{Failed, Files};
use std::alloc::Global;
use std::hash::RandomState;
use std::io;
use std::io::Read;

/// How many bytes are passed over at a time.
const CHUNK: usize = 4096;

/// A file that is open, and the byte at which its next read goes on.
#[derive(Drop)]
struct OpenFile<R> {
    name: String,
    at: u64,
    file: R,
}

/// The files of a system, by their names. One count of faults serves for all of them. They are told as their opener
/// tells them.
///
/// The file that was read last stays open, so that a pipe can be read too.
#[derive(Drop)]
pub struct SystemFiles<S: Opener> {
    alloc: Global,
    opener: S,
    current: Option<OpenFile<S::File>>,
    faults: u64,
    keys: RandomState,
    ghost stands: { ForSome current (λ o. StandsAt (S.told opener (string_bytes o.name)) o.at (S.File.remaining o.file)) } by { Π_prop (λ o. →_prop (StandsAt-prop (S.told opener (string_bytes o.name)) o.at (S.File.remaining o.file))) },
}

/// Passes over so many bytes, or over all where there are fewer.
fn skip<R: Read>(file: &mut R, count: u64) -> io::Result<()>
    ensures { OnOk result ((left : List ℕ) → R.remaining file.old ≡ Some left → R.remaining file.new ≡ Some (drop count left)) }
{
    let mut bytes = [0u8; CHUNK];
    let mut left = count;
    while left > 0 {
        let wanted = left.min(CHUNK as u64) as usize;
        let given = read_retrying(file, &mut bytes[..wanted])?;
        if given == 0 {
            break;
        }
        left -= given as u64;
    }
    Ok(())
}

impl<S: Opener> SystemFiles<S> {
    /// The files of the opener, which tell these keys. No fault is counted yet.
    pub fn new(alloc: Global, opener: S, keys: RandomState) -> SystemFiles<S>
        ensures told { (name : List ℕ) → ⟦<SystemFiles<S> as Files>⟧.told result name ≡ S.told opener name }
        ensures faults { (name : List ℕ) → ⟦<SystemFiles<S> as Files>⟧.faults result name ≡ 0 }
    {
        SystemFiles {
            alloc,
            opener,
            current: None,
            faults: 0,
            keys,
        }
    }

    /// The file at this byte: the one that is open, where it stands there, else opened anew.
    fn file_at(&mut self, name: &str, at: u64) -> io::Result<OpenFile<S::File>>
        ensures name { IfOk result (λ o. string_bytes o.name ≡ name.now) }
        ensures at { IfOk result (λ o. o.at ≡ at) }
        ensures stands { IfOk result (λ o. StandsAt (S.told self.old.opener name.now) at (S.File.remaining o.file)) }
        ensures opener { self.new.opener ≡ self.old.opener }
        ensures faults { self.new.faults ≡ self.old.faults }
    {
        if let Some(open) = self.current.take() {
            if open.at == at && open.name.as_str() == name {
                return Ok(open);
            }
        }
        let mut file = self.opener.open(name)?;
        skip(&mut file, at)?;
        let name = String::from_str(self.alloc, name)?;
        Ok(OpenFile { name, at, file })
    }

    /// Reads bytes of the file from its byte `at` to the front of the buffer, and keeps the file open.
    fn read_at(&mut self, name: &str, at: u64, buffer: &mut [u8]) -> io::Result<usize>
        ensures bound { IfOk result (λ count. count ≤ length buffer.new) }
        ensures fills { IfOk result (λ count. Fills (S.told self.old.opener name.now) at buffer.new count) }
        ensures opener { self.new.opener ≡ self.old.opener }
        ensures faults { self.new.faults ≡ self.old.faults }
    {
        let mut open = self.file_at(name, at)?;
        let count = read_retrying(&mut open.file, buffer)?;
        if let Some(next) = at.checked_add(count as u64) {
            open.at = next;
            self.current = Some(open);
        }
        Ok(count)
    }
}

impl<S: Opener> Files for SystemFiles<S> {
    ghost told = { λ files name. S.told files.opener name };

    ghost faults = { λ files _. files.faults };

    fn read(&mut self, name: &str, at: u64, buffer: &mut [u8]) -> Result<usize, Failed> {
        match self.read_at(name, at, buffer) {
            Ok(count) => Ok(count),
            Err(_) => {
                self.faults = self.faults.saturating_add(1);
                Err(Failed)
            }
        }
    }

    fn hash_keys(&self) -> RandomState {
        self.keys
    }
}
