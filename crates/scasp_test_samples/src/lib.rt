//! Small programs for tests, made from tables.
//!
//! An atom is written by its name alone, or by its name and the one argument `c`.
#![tactic(auto)]

mod names;
mod programs;

pub use names::{Name, P, P_OF_C, Q, Q_OF_C, R, R_OF_C, S, S_OF_C, T, U};
pub use programs::{Literal, Rule, atom, body, literal, map_of, numbers, one, pred, program};
