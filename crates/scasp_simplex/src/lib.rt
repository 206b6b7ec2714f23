//! Linear rows that come and go, decided by a simplex tableau (Dantzig 1951; Dutertre and de Moura 2006) that is
//! kept between the calls. What the tableau computes is not trusted: a point that it gives is tested at each row,
//! multipliers are turned into steps and tried, and where that fails the rows are eliminated.
#![tactic(auto)]

mod adding;
mod certified;
mod chain;
mod combination;
mod combining;
mod dropping;
mod fallback;
mod form;
mod nearest;
mod pivoting;
mod point;
mod pointing;
mod solving;
mod stop;
mod tableau;
mod value;
mod whole;

pub use tableau::{TabMark, Tableau};
