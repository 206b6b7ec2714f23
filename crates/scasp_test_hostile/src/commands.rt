//! Commands over files and a sink in memory.
use scasp_io::{Bytes, CallList, MemFile, MemFileList, MemFiles, MemSink, Memory};
use scasp_top::{Status, scasp};
use std::alloc::{AllocError, Global};
use std::hash::RandomState;

/// The words of a command, and the texts of the files `p` and `a`.
#[derive(Clone, Copy)]
pub(crate) struct Command<'a> {
    pub words: &'a [&'a str],
    pub program: &'a str,
    pub answers: &'a str,
}

fn words_of(alloc: Global, words: &[&str]) -> Result<Vec<String>, AllocError> {
    let mut all = Vec::new(alloc);
    for word in words {
        all.push(String::from_str(alloc, word)?)?;
    }
    Ok(all)
}

fn file(alloc: Global, name: &str, text: &str) -> Result<MemFile, Memory> {
    let name = Bytes::from(Vec::from_slice(alloc, name.as_bytes())?);
    let bytes = Bytes::from(Vec::from_slice(alloc, text.as_bytes())?);
    Ok(MemFile { name, bytes })
}

fn files_of(alloc: Global, keys: RandomState, command: &Command) -> Result<MemFiles, Memory> {
    let mut files = MemFileList::new(alloc);
    files.push(file(alloc, "p", command.program)?)?;
    files.push(file(alloc, "a", command.answers)?)?;
    Ok(MemFiles::new(files, CallList::new(alloc), keys))
}

/// Whether the command prints this, and ends so. The names of its files are hashed by the keys.
pub(crate) fn prints(
    alloc: Global,
    keys: RandomState,
    command: &Command,
    text: &str,
    status: Status,
) -> Result<bool, Memory> {
    let words = words_of(alloc, command.words)?;
    let mut files = files_of(alloc, keys, command)?;
    let mut out = MemSink::new(alloc, 100_000, 1_000, CallList::new(alloc))?;
    let ended = scasp(alloc, &words, &mut files, &mut out);
    Ok(ended == status && out.taken.as_slice() == text.as_bytes())
}
