//! What is written of answers is read back: laws that join the lines of certificates with reading.

pub mod laws;
