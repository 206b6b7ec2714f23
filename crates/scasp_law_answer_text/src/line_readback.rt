//! What is written of a line of an answer file is read back: laws that join the text of lines with reading.

pub mod laws;
