//! Lists of constraints that two literals of a certificate meet where they have one atom.
#![tactic(auto)]

mod above;
mod by_lines;
pub mod laws;
mod pairs;
mod raising;

pub use above::{above_all, above_con, above_cons};
pub use by_lines::{ApartErr, apart, context, pair};
pub use pairs::{is_pair, pair_list};
pub use raising::{Raising, con_raised};
pub use scasp_lines_walk::Saying;
