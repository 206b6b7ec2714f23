//! Runs `scasp_view` on the words of each line of a file, and prints the line, what is shown, and the exit code.
#![tactic(auto)]

use scasp_command_inputs::Status;
use scasp_io::{Files, OutputErr, Sink, read_file, write_all};
use scasp_list::Memory;
use scasp_print_words::{put, put_number};
use scasp_system::{HostFiles, SystemFiles, SystemSink, command_words};
use scasp_view_top::view;
use std::alloc::Global;
use std::hash::RandomState;
use std::process::ExitCode;
use std::{env, io};

/// The exit code where the system does not give the words, or random keys.
const NOT_GIVEN: u8 = 13;

/// The longest file of lines.
const LONGEST: u64 = 65_536;

/// The words of a line.
fn words_of(alloc: Global, line: &str) -> Result<Vec<String>, Memory> {
    let mut words = Vec::new(alloc);
    for word in line.split(' ') {
        words.push(String::from_str(alloc, word)?)?;
    }
    Ok(words)
}

/// The line of an exit code.
fn code_line(alloc: Global, status: Status) -> Result<Vec<u8>, Memory> {
    let mut line = Vec::new(alloc);
    put(&mut line, "= ")?;
    put_number(&mut line, status.code() as u64)?;
    put(&mut line, "\n\n")?;
    Ok(line)
}

/// Shows what the words of the line ask for, behind the line, and then the exit code.
fn show<F: Files, K: Sink>(
    alloc: Global,
    line: &str,
    disk: &mut F,
    out: &mut K,
) -> Result<(), OutputErr> {
    write_all(out, b"$ ")?;
    write_all(out, line.as_bytes())?;
    write_all(out, b"\n")?;
    let status = view(alloc, &words_of(alloc, line)?, disk, out);
    write_all(out, code_line(alloc, status)?.as_slice())?;
    Ok(())
}

/// The same of each line of the text but empty ones.
fn show_all<F: Files, K: Sink>(
    alloc: Global,
    text: &str,
    disk: &mut F,
    out: &mut K,
) -> Result<(), OutputErr> {
    for line in text.split('\n') {
        if !line.is_empty() {
            show(alloc, line, disk, out)?;
        }
    }
    Ok(())
}

/// The text of the file, where it is read.
fn text_of<F: Files>(alloc: Global, name: &str, disk: &mut F) -> Option<String> {
    let bytes = read_file(alloc, disk, name, LONGEST).ok()?;
    String::from_utf8(bytes).ok()
}

/// The same of each line of the file, if that is read.
fn show_file<F: Files, K: Sink>(alloc: Global, name: &str, disk: &mut F, out: &mut K) -> bool {
    let Some(text) = text_of(alloc, name, disk) else {
        return false;
    };
    show_all(alloc, text.as_str(), disk, out).is_ok()
}

fn main(rt: HostRuntime) -> ExitCode {
    let Ok(arguments) = env::args(&rt) else {
        return ExitCode::from(NOT_GIVEN);
    };
    let Ok(names) = command_words(rt.alloc(), arguments) else {
        return ExitCode::from(NOT_GIVEN);
    };
    let Ok(keys) = RandomState::new(&rt) else {
        return ExitCode::from(NOT_GIVEN);
    };
    let mut disk = SystemFiles::new(rt.alloc(), HostFiles(&rt), keys);
    let mut out = SystemSink::new(io::writer(&rt));
    let mut well = true;
    for name in names.as_slice() {
        well = show_file(rt.alloc(), name.as_str(), &mut disk, &mut out) && well;
    }
    ExitCode::from(if well { 0 } else { 1 })
}
