//! The program `scasp_serve`: its call over real files and standard output.
#![tactic(auto)]

use scasp_serve_top::serve;
use scasp_system::{HostFiles, SystemFiles, SystemSink, command_words};
use std::hash::RandomState;
use std::process::ExitCode;
use std::{env, io};

/// The exit code where the system does not give the words, or random keys.
const NOT_GIVEN: u8 = 13;

fn main(rt: HostRuntime) -> ExitCode {
    let Ok(arguments) = env::args(&rt) else {
        return ExitCode::from(NOT_GIVEN);
    };
    let Ok(words) = command_words(rt.alloc(), arguments) else {
        return ExitCode::from(NOT_GIVEN);
    };
    let Ok(keys) = RandomState::new(&rt) else {
        return ExitCode::from(NOT_GIVEN);
    };
    let mut files = SystemFiles::new(rt.alloc(), HostFiles(&rt), keys);
    let mut out = SystemSink::new(io::writer(&rt));
    let status = serve(rt.alloc(), &words, &mut files, &mut out);
    ExitCode::from(status.code())
}
