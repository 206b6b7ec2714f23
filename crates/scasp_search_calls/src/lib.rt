//! What calls of literals and cases of covers are made of, in states of the search.
#![tactic(auto)]

mod calls;
mod cases;

pub use calls::{
    body_of, first_number, head_args, leave_literal, marked_by, nearest, opposite_constraints,
    push_shows, rules_of, seen, vars_of_clause, with_literal,
};
pub use cases::{
    ended_by, failing_at, head_call, pays, push_lines, split_first, taken_up, waits, with_cases,
    with_first,
};
