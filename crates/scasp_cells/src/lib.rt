//! A stack in segments over raw memory.
//!
//! The items lie in segments, blocks of memory with room for 1, 2, 4, .. items. Growth adds a
//! segment and copies no item, so items never move, and n pushes ask for memory a number of times
//! that is logarithmic in n. A rewind keeps the segments that it empties, so as many pushes after
//! it take no memory.
//!
//! Segment k begins at place 2^k - 1. So the item at a place is found without a walk over the
//! segments: with x = place + 1, the segment is the highest bit of x, which a count of leading
//! zeros gives, and the offset is the bits below it.
//!
//! Raw pointers are used by the six functions of `segment` alone: `allocate`, `push`, `pop`,
//! `as_slice`, `replace` and `free`. Each is proved by hand. What stands above them is plain code.
#![tactic(auto)]

mod cells;
mod place;
mod segment;

pub use cells::Cells;
