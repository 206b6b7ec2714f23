//! Carries out the cases in the files that the words name, one after the other, and says of each whether what came is what should.
#![tactic(auto)]

mod files;
mod pieces;
mod programs;
mod searches;
mod slices;
mod steps;
mod stop;
mod sweeps;
mod world;

use crate::files::are_right;
use crate::steps::LONGEST;
use scasp_io::{Files, Sink, read_file, write_all};
use scasp_system::{HostFiles, SystemFiles, SystemSink, command_words};
use std::alloc::Global;
use std::hash::RandomState;
use std::process::ExitCode;
use std::{env, io};

/// The exit code where the system does not give the words, or random keys.
const NOT_GIVEN: u8 = 13;

/// The text of the file, where it is read.
fn text_of<F: Files>(alloc: Global, name: &str, disk: &mut F) -> Option<String> {
    let bytes = read_file(alloc, disk, name, LONGEST).ok()?;
    String::from_utf8(bytes).ok()
}

/// Prints the name of the file, and then what is told of its cases; whether all of them went as they should.
fn is_right<F: Files, K: Sink>(alloc: Global, name: &str, disk: &mut F, out: &mut K) -> bool {
    let is_named = write_all(out, b"% ").is_ok()
        && write_all(out, name.as_bytes()).is_ok()
        && write_all(out, b"\n").is_ok();
    let Some(text) = text_of(alloc, name, disk) else {
        return false;
    };
    is_named && are_right(alloc, disk, text.as_str(), out).unwrap_or(false)
}

fn main(rt: HostRuntime) -> ExitCode {
    let Ok(arguments) = env::args(&rt) else {
        return ExitCode::from(NOT_GIVEN);
    };
    let Ok(names) = command_words(rt.alloc(), arguments) else {
        return ExitCode::from(NOT_GIVEN);
    };
    let Ok(keys) = RandomState::new(&rt) else {
        return ExitCode::from(NOT_GIVEN);
    };
    let mut disk = SystemFiles::new(rt.alloc(), HostFiles(&rt), keys);
    let mut out = SystemSink::new(io::writer(&rt));
    let mut well = true;
    for name in names.as_slice() {
        well = is_right(rt.alloc(), name.as_str(), &mut disk, &mut out) && well;
    }
    ExitCode::from(if well { 0 } else { 1 })
}
