//! Lists of numbers.
use scasp_list::Sequence;

/// Numbers of variables.
pub type VarList = Sequence<u64>;

/// Numbers of rules and denials, from 1.
pub type RuleList = Sequence<u64>;

/// Places in a list, from 0.
pub type PlaceList = Sequence<u64>;
