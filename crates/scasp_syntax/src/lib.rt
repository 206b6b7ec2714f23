//! Terms, atoms, constraints and programs.
#![tactic(auto)]

mod atom;
mod clause;
mod con;
mod copies;
mod equality;
mod flat_bodies;
mod groundness;
mod hint;
mod instances;
pub mod laws;
mod lists;
mod predicate_map;
mod program;
mod rebuilding;
mod renaming;
mod sizes;
mod term;
mod walk;

pub use atom::{Atom, Atoms, Lit, Lits, Pred, Preds};
pub use clause::{
    Clause, Clauses, FlatItem, FlatItems, Item, Items, Lin, Queries, Query, VarNames,
};
pub use con::{Con, ConLists, Cons};
pub use copies::{DeepCopy, copy, copy_terms};
pub use equality::{same, same_atom, same_lit, same_terms};
pub use flat_bodies::{flat, flat_items};
pub use groundness::{are_ground, is_ground};
pub use hint::Hint;
pub use instances::{instance, instance_atom, instance_terms};
pub use lists::{PlaceList, RuleList, VarList};
pub use predicate_map::{PredMap, PredMaps};
pub use program::Program;
pub use rebuilding::{Values, rebuilt};
pub use renaming::{rename, rename_terms};
pub use scasp_list::Sequence;
pub use sizes::size;
pub use term::{Term, Terms};
pub use walk::Walk;
