//! Terms of all forms that are written are read back: laws that join their texts with the grammar of terms.

pub mod laws;
