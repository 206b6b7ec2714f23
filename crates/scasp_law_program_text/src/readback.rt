//! What is written of a program is read back: laws that join the texts of `scasp_cert` with the reader.

pub mod laws;
