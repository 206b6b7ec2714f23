//! The replies to commands: sessions that are opened, that go on and that are closed, with their answers checked and written.
#![tactic(auto)]

mod coming;
mod desk;
mod slices;
mod tallies;
mod texts;

pub use coming::{Coming, NoAnswer};
pub use desk::{Desk, reply};
pub use tallies::Tally;
