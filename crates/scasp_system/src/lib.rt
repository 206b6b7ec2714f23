//! What a system gives a program, as the calls of the solver see it: files, a writer, the words of a command.
#![tactic(auto)]

mod files;
mod host;
mod opener;
mod retrying;
mod sink;
mod words;

pub use files::SystemFiles;
pub use host::HostFiles;
pub use opener::Opener;
pub use sink::SystemSink;
pub use words::command_words;
