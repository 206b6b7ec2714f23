//! Levels and signs of predicates.
use crate::atom::Pred;
use scasp_list::Sequence;

/// The level and the sign of a predicate; `plus` is the sign `+`.
#[derive(Clone, Copy, Debug, PartialEq, Eq)]
pub struct PredMap {
    pub pred: Pred,
    pub level: u64,
    pub plus: bool,
}

/// Levels and signs, one for each predicate that is listed.
pub type PredMaps = Sequence<PredMap>;
