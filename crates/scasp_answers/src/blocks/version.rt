//! The versions of answer files.

/// How an answer file writes its blocks.
#[derive(Clone, Copy, Debug, PartialEq, Eq)]
pub enum Version {
    /// Each line stands there.
    One,
    /// A subtree that stands there may be written `copy N` once more.
    Two,
}
