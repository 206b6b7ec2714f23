//! Pairs of literals, which have to be shown apart.

mod clash_lines;
mod clashes;
mod pairs;

pub use pairs::accept_apart;
