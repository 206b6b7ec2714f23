//! The end of a branch of the written search: whether its literals are apart, and the sample of its answer.

mod answers;
mod behind;
mod pairs;
mod replacing;

pub use answers::answer_at;
pub use replacing::close_overflows;
