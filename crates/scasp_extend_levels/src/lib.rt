//! The levelled model of ground rules, level by level, and within a level by the two signs.
#![tactic(auto)]

mod buckets;
mod levels;
mod numbered;
mod reducts;
mod sets;
mod signs;
mod standings;

pub use buckets::Levels;
pub use sets::add_all;
