//! A block with what is said of it.
use scasp_cert::Cert;

/// A block with what is said of it.
#[derive(Drop)]
pub struct Judged<'a> {
    /// The line of its verdict.
    pub verdict: Vec<u8>,
    /// The line that blocks of its query with this verdict share.
    pub worth: Vec<u8>,
    /// Whether it is accepted.
    pub accepted: bool,
    /// Its query with terms for the variables, with the end of the line.
    pub query: Vec<u8>,
    pub cert: &'a Cert,
}
