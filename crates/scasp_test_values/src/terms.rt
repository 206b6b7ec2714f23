//! Lists, names, terms, tokens and texts.
mod cells;
mod lexis;
mod lists;
mod names;
mod phrases;
mod programs;
mod terms;
mod trials;
mod unified;
