//! What comes of a slice.
use scasp_cert::Cert;

/// What comes within so many calls of a search for answers to a query.
pub type Advance = scasp_search_walk::Advance<Cert>;
