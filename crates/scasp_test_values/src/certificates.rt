//! Certificates and their text.
mod counted;
mod made;
mod printed;

pub(crate) use made::certificate;
