//! Linear rows that come and go.
mod random;
mod tables;
mod trials;
