//! Laws of propositional programs, of which no finished tree of the search is passed over. It has no code, but definitions, and
//! laws as public functions.
#![tactic(auto)]

pub mod propositional;
pub mod runs;
