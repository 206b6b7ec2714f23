//! How bytes are no answer file.

/// What is wrong with the first line at fault. They are tested in this order.
#[derive(Clone, Copy, Debug, PartialEq, Eq)]
pub enum AnswerKind {
    /// The input is longer than 67,108,864 bytes.
    Limit,
    /// The line has no form.
    Line,
    /// A number of the line is too large.
    NumberTooLarge,
    /// The line may not stand there, or not as deep.
    Order,
    /// The input ends within a line or a block, or without a header.
    Cut,
}

/// A fault, and the place of its byte, from 0.
#[derive(Clone, Copy, Debug, PartialEq, Eq)]
pub struct AnswerFault {
    pub at: u64,
    pub kind: AnswerKind,
}
