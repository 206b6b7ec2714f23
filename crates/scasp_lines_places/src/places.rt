//! What stands around a line of a certificate: what opened on the way to it, what is replaced, the literals above and the
//! cases around.

mod chain;
mod cover;
mod inside;
mod opening;
mod parts;
mod place;
mod scope;
mod sides;
mod substitution;

pub use chain::Chain;
pub use cover::{Cover, covering};
pub use inside::{Body, Inside, inside_check, inside_rule};
pub use opening::{Opening, open_head};
pub use parts::{negated, new_parts};
pub use place::{Ancestor, Enclosing, Entry, Place};
pub use scope::{in_scope, is_universal, knows};
pub use sides::{Bounds, Shape, Sides, both_sides, shape_of};
pub use substitution::{
    ClauseValues, Replaced, Substitution, ValuesHere, all_under, atom_under, bound_to,
    replaced_value, under,
};
