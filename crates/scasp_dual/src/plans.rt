//! The rules of each predicate.
use scasp_syntax::{FlatItems, Pred, Sequence};

/// A rule by its number, counted from 1, and its flat body.
#[derive(Debug, Drop)]
pub struct RulePlan {
    pub rule: u64,
    pub body: FlatItems,
}

/// A list of rules with their flat bodies.
pub type RulePlans = Sequence<RulePlan>;

/// A predicate and its rules in order.
///
/// The dual of a rule is that one of its flat body's items is false: alternative k of it is that items 1 to k-1
/// are true and item k is false.
#[derive(Debug, Drop)]
pub struct Plan {
    pub pred: Pred,
    pub rules: RulePlans,
}

/// A list of predicates with their rules.
pub type Plans = Sequence<Plan>;
