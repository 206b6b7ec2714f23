//! What becomes of a term that is to be a member of a domain.

/// What became of a term that was to be a member of a domain.
#[derive(Clone, Copy, Debug, PartialEq, Eq)]
pub enum Pushed {
    /// It stands last.
    Added,
    /// A variable stands in it, and nothing was added.
    NotGround,
    /// It was a member already.
    Repeated,
}
