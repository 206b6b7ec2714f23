//! Tests of grounding and of stable models, from texts.
#![tactic(auto)]

#[cfg(test)]
mod instances;
#[cfg(test)]
mod limits;
#[cfg(test)]
mod stable;
#[cfg(test)]
mod texts;
