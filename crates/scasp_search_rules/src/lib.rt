//! States of the search as plain data, and the definitions of what comes after each state.
#![tactic(auto)]

mod states;
pub mod successors;

pub use states::{
    Aim, Bindings, CaseList, Cover, Covers, Kind, Line, Lines, Literal, Literals, Made, Pair,
    Pairs, Parting, Remainder, Remainders, Repeated, State, Status, Task, Tasks, Variables,
    copy_binding, copy_bindings,
};
