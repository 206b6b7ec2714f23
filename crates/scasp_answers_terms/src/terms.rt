//! Terms of answer files, read from the tokens of a line.

mod atoms;
mod begins;
mod ends;
mod levels;
mod names;
mod numbers;
mod shapes;
mod terms;

pub use atoms::{atom, literal};
pub use names::{name, place, unescaped};
pub use numbers::unfit;
pub use terms::{list, term};
