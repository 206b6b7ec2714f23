//! Trees in the making: lines put from the last to the first, over a stack for each sort of item.
#![tactic(auto)]

mod stacks;

pub use stacks::{
    Stacks, put_case, put_check, put_head, put_leaf, put_neg, put_node, put_pos, put_rule,
    put_split, trees_and_checks,
};
