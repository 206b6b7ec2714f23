//! Laws of program texts: the grammar apart from the reader, and that what is written is read back. It has no code, but
//! definitions, and laws as public functions.
#![tactic(auto)]

pub mod clause_readback;
pub mod compound_readback;
pub mod fitting;
pub mod grammar;
pub mod linear_readback;
pub mod readback;
pub mod term_fitting;
pub mod term_readback;
