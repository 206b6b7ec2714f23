//! The least set that rules over numbers give, in time linear in the rules.
#![tactic(auto)]

mod numbered;
mod worklist;

pub use numbered::{NumberList, NumberSet, NumberedRule, NumberedRules};
pub use worklist::least_set;
