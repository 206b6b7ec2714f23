//! What is read of a text can be written, and is read again: laws of what a reader of programs gives.

pub mod laws;
