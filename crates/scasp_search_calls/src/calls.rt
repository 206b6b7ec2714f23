//! What a call of a literal is made of: clauses, literals that are repeated, and the end of a literal.

mod bodies;
mod earlier;
mod entering;
mod marks;
mod raising;
mod repeated;

pub use bodies::{body_of, opposite_item};
pub use earlier::{opposite_constraints, seen};
pub use entering::{head_args, push_shows, rules_of, vars_of_clause, with_literal};
pub use marks::{first_number, leave_literal, marked_by};
pub use raising::Raised;
pub use repeated::nearest;
