//! Terms that are read can be written, and read again: laws of what a reader gives.

pub mod laws;
