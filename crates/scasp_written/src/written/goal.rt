//! What a search is about.
use scasp_nmr::CheckItems;
use scasp_syntax::{PredMaps, Program};

/// The program, the number of its query and how many variables that has, the clauses that are checked, the map of the
/// predicates, and the first name that samples may use.
#[derive(Drop)]
pub struct Goal {
    pub program: Program,
    pub query: u64,
    pub queried: u64,
    pub checks: CheckItems,
    pub map: PredMaps,
    pub fresh: u64,
}
