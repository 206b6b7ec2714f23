//! What a case of a cover is made of: its beginning, its items, and what is kept at its end.

mod beginning;
mod closing;
mod costs;
mod kept;
mod leaves;
mod lists;

pub use beginning::with_cases;
pub use closing::taken_up;
pub use costs::{pays, waits};
pub use kept::{ended_by, push_lines};
pub use leaves::{failing_at, head_call};
pub use lists::{split_first, with_first};
