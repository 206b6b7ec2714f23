//! Tests of the parts of the state with a trail, over public calls.
#![tactic(auto)]

#[cfg(test)]
mod bound;
#[cfg(test)]
mod forall;
#[cfg(test)]
mod frames;
#[cfg(test)]
mod loops;
#[cfg(test)]
mod pending;
#[cfg(test)]
mod told;
#[cfg(test)]
mod trail;
#[cfg(test)]
mod variables;
