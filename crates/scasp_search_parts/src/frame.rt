//! Frames of pending work.
use scasp_list::Memory;
use scasp_syntax::{DeepCopy, FlatItem};
use std::alloc::Global;

/// Something that is still to be done.
#[derive(Drop)]
pub enum Frame {
    /// An item of a flat body, and the truth that is asked.
    Item(FlatItem, bool),
    /// The end of a literal.
    EndNode,
    /// The end of a leaf.
    EndLeaf,
    /// The check of the clause of this number.
    Check(u64),
}

impl DeepCopy for Frame {
    fn copy(&self, alloc: Global) -> Result<Frame, Memory> {
        match self {
            Frame::Item(item, truth) => Ok(Frame::Item(item.copy(alloc)?, *truth)),
            Frame::EndNode => Ok(Frame::EndNode),
            Frame::EndLeaf => Ok(Frame::EndLeaf),
            Frame::Check(clause) => Ok(Frame::Check(*clause)),
        }
    }
}
