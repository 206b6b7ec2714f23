//! Tests of numbers and rows, and of what is decided of lists of constraints.
#![tactic(auto)]

#[cfg(test)]
mod constraints;
#[cfg(test)]
mod dense;
#[cfg(test)]
mod hints;
#[cfg(test)]
mod numbers;
#[cfg(test)]
mod projections;
#[cfg(test)]
mod rows;
#[cfg(test)]
mod simplex;
#[cfg(test)]
mod written;
