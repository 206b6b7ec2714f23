//! Linear items that are written are read back: laws that join their texts with the grammar of expressions and of items.

pub mod laws;
