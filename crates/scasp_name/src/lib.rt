//! The table of names: each text of a program once, in order of first use.
//!
//! A name is the place of its text. The first two texts are always `[]` and `[|]`, so the names of
//! lists have the same places in every table.
#![tactic(auto)]

pub mod laws;
mod name_id;
mod names;

pub use name_id::{NIL, NameId, PAIR};
pub use names::Names;
pub use scasp_list::Memory;
