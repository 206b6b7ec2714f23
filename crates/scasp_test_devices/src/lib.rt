//! Tests of reads and writes, and of the edge to the system.
#![tactic(auto)]

#[cfg(test)]
mod objects;
#[cfg(test)]
mod samples;
#[cfg(test)]
mod system;
