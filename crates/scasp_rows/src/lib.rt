//! Linear rows over the rationals: the sum of two rows with multipliers, lists of such steps that lead to a
//! contradiction, the elimination of variables, which decides whether rational values meet all rows, and
//! points that meet rows and disequations.
#![tactic(auto)]

mod backward;
mod elimination;
mod falsity;
mod indexed;
pub mod laws;
mod left_rows;
mod outlook;
mod range;
mod replacing;
mod rows;
mod samples;
mod state;
mod steps;
mod verdict;

pub use elimination::variables;
pub use left_rows::eliminate_variables;
pub use rows::is_false;
pub use samples::{Point, RowLists, are_disequations, sample};
pub use steps::{StepErr, step};
pub use verdict::{LinErr, Verdict, eliminate, is_free_of_disequations};
