//! If no rule body has a variable that its head lacks, a search splits no case.
#![tactic(auto)]

pub mod laws;
