//! What the checker's walks make of worked certificates: what stands at each line, and what shows lines apart.
mod contexts;
mod made;
mod number_samples;
mod samples;
mod standing;
mod trees;
mod written;
