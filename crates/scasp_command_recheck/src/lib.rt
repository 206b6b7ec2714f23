//! The command `recheck`: what each block of an answer file is worth under one program after another.
#![tactic(auto)]

mod blocks;
mod course;
mod parts;
mod text;

pub use course::recheck_files;
