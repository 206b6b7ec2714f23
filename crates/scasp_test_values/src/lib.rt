//! Tests of values in memory, over public calls.
#![tactic(auto)]

#[cfg(test)]
mod certificates;
#[cfg(test)]
mod places;
#[cfg(test)]
mod plans;
#[cfg(test)]
mod rows;
#[cfg(test)]
mod stores;
#[cfg(test)]
mod terms;
