//! Exact rational numbers of 128 bits, and linear comparisons over them in normal form.
#![tactic(auto)]

mod bounded;
mod comparison;
mod equality;
pub mod hints;
pub mod laws;
pub mod linear;
mod normal;
pub mod rational;
mod substitution;
mod sums;

pub use hints::{Step, StepLists, Steps};
pub use linear::{Coeff, Coeffs, Op, RatPair, RatPairs, Row, RowErr, Rows};
pub use rational::{Overflow, Rat};
pub use scasp_list::Memory;
