//! A program as text with the number of each clause and of each query in front.
mod lines;

pub use lines::print_numbered;
