//! The grammar of program texts, apart from the reader: trees, their tokens, and what they mean; laws that join them with the reader.

pub mod laws;
