//! What stands around a line of a certificate, and what is due on the line.
#![tactic(auto)]

mod dues;
mod places;

pub use dues::{
    Due, Dues, change_context, constraint_count, context, determined, head_dues, leaf_dues,
    query_dues, raised_from, raised_row, rule_dues, top,
};
pub use places::{
    Ancestor, Body, Bounds, Chain, ClauseValues, Enclosing, Entry, Inside, Place, Replaced, Shape,
    Sides, Substitution, all_under, atom_under, both_sides, bound_to, in_scope, inside_check,
    inside_rule, is_universal, negated, new_parts, replaced_value, shape_of, under,
};
