//! One session.
use scasp_search::Search;

/// A search and its number.
#[derive(Drop)]
pub struct Session {
    pub(crate) number: u64,
    pub(crate) search: Search,
}
