//! A program's text read as a program: well formed, with the generated denials behind its clauses.

mod denials;
pub mod laws;
mod reading;

pub use denials::denial_of;
pub use reading::read_program;
