//! What the steps of a case work on: files in memory, a device, and what came of the last command.
use crate::stop::Stop;
use scasp_io::{Bytes, CallList, MemFile, MemFileList, MemFiles, MemSink, Memory};
use scasp_serve_top::serve;
use scasp_top::{Status, scasp};
use std::alloc::{AllocError, Global};
use std::hash::RandomState;

/// How many bytes may be printed.
const ROOM: u64 = 100_000_000;

/// The most bytes that one write takes, and the numbers of the read and of the write that fail, from 1, or 0 for none.
#[derive(Clone, Copy)]
pub struct Device {
    pub chunk: u64,
    pub failing_read: u64,
    pub failing_write: u64,
}

/// A device that takes much at once and never fails.
pub const SOUND: Device = Device {
    chunk: 1_000,
    failing_read: 0,
    failing_write: 0,
};

/// The files, the device, how the last command ended and what it printed, and the text that is looked for in a change.
#[derive(Drop)]
pub struct World {
    pub files: MemFiles,
    pub device: Device,
    pub status: Status,
    pub printed: Vec<u8>,
    pub old: Vec<u8>,
}

/// The list of this number.
fn one(alloc: Global, number: u64) -> Result<CallList, Memory> {
    let mut calls = CallList::new(alloc);
    calls.push(number)?;
    Ok(calls)
}

/// The words, of which `''` stands for the empty one.
fn words_of(alloc: Global, words: &[&str]) -> Result<Vec<String>, AllocError> {
    let mut all = Vec::new(alloc);
    for word in words {
        let text = if *word == "''" { "" } else { *word };
        all.push(String::from_str(alloc, text)?)?;
    }
    Ok(all)
}

/// Carries out the command of these words; behind `serve` they are those of `scasp_serve`. How it ends.
fn ended(
    alloc: Global,
    words: &[&str],
    files: &mut MemFiles,
    out: &mut MemSink,
) -> Result<Status, Memory> {
    match words {
        ["serve", behind @ ..] => {
            let words = words_of(alloc, behind)?;
            Ok(serve(alloc, &words, files, out).status())
        }
        _ => {
            let words = words_of(alloc, words)?;
            Ok(scasp(alloc, &words, files, out))
        }
    }
}

impl World {
    /// No files, which tell these keys, and a sound device.
    pub fn new(alloc: Global, keys: RandomState) -> World {
        World {
            files: MemFiles::new(MemFileList::new(alloc), CallList::new(alloc), keys),
            device: SOUND,
            status: Status::Done,
            printed: Vec::new(alloc),
            old: Vec::new(alloc),
        }
    }

    /// The bytes of the file; `NoStep` where there is none.
    pub fn file(&self, name: &str) -> Result<&[u8], Stop> {
        for file in self.files.files.as_slice() {
            if file.name.as_slice() == name.as_bytes() {
                return Ok(file.bytes.as_slice());
            }
        }
        Err(Stop::NoStep)
    }

    /// Gives the file these bytes.
    pub fn put_file(&mut self, alloc: Global, name: &str, bytes: Vec<u8>) -> Result<(), Memory> {
        let name = Vec::from_slice(alloc, name.as_bytes())?;
        let made = MemFile {
            name: Bytes::from(name),
            bytes: Bytes::from(bytes),
        };
        let mut files = MemFileList::new(alloc);
        let others = std::mem::replace(&mut self.files.files, MemFileList::new(alloc));
        for file in others.into_vec() {
            if file.name.as_slice() != made.name.as_slice() {
                files.push(file)?;
            }
        }
        files.push(made)?;
        self.files.files = files;
        Ok(())
    }

    /// Carries out the command of these words over the device.
    pub fn carry_out(
        &mut self,
        alloc: Global,
        words: &[&str],
        device: Device,
    ) -> Result<(), Memory> {
        self.files.failing = one(alloc, device.failing_read)?;
        self.files.calls = 0;
        let failing = one(alloc, device.failing_write)?;
        let mut out = MemSink::new(alloc, ROOM, device.chunk, failing)?;
        self.status = ended(alloc, words, &mut self.files, &mut out)?;
        self.printed = out.taken;
        Ok(())
    }
}

/// The name of the status.
pub fn name_of(status: Status) -> &'static str {
    match status {
        Status::Done => "Done",
        Status::NoAnswer => "NoAnswer",
        Status::Usage => "Usage",
        Status::Text => "Text",
        Status::Read => "Read",
        Status::Write => "Write",
        Status::Spent => "Spent",
        Status::Overflow => "Overflow",
        Status::Memory => "Memory",
        Status::Refused => "Refused",
        Status::Limit => "Limit",
        Status::NoModel => "NoModel",
    }
}
