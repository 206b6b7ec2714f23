//! What stands around lines of a certificate, and what is due there.
mod dues;
mod made;
mod openings;
mod pairs;
mod places;
mod rows;
mod splits;
