//! Texts, numbers and names at the end of a list of bytes, as certificates and programs are written with.
#![tactic(auto)]

mod names;
mod texts;

pub use names::{is_pair, put_constant, put_name, text_at};
pub use texts::{put, put_integer, put_number, put_rational, put_separator};
