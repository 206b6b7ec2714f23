//! Lists of one type of item, and the want of memory.
#![tactic(auto)]

mod memory;
mod sequence;

pub use memory::Memory;
pub use sequence::Sequence;
