//! Whether a line may stand where it is read.

/// Whether a line may stand where it is read.
#[derive(Clone, Copy, Debug, PartialEq, Eq)]
pub enum Placing {
    Stands,
    OutOfOrder,
}
