//! States of the written search, as plain data, and copies of them.

mod copies;
mod covers;
mod lines;
mod outcomes;
mod state;
mod tasks;

pub use copies::{copy_binding, copy_bindings};
pub use covers::{CaseList, Cover, Covers, Remainder, Remainders};
pub use lines::{Line, Lines};
pub use outcomes::{Parting, Repeated, Status};
pub use state::{Bindings, Kind, Literal, Literals, Made, State, Variables};
pub use tasks::{Aim, Pair, Pairs, Task, Tasks};
