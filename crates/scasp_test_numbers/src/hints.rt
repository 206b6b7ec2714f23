//! Which hint is found for a list of constraints, and which fault a hint has.
mod finding;
mod showing;
mod tried;
