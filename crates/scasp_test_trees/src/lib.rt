//! Tests of trees: what the checker makes of worked certificates, and the deepest trees and terms.
#![tactic(auto)]

#[cfg(test)]
mod depth;
#[cfg(test)]
mod worked;
