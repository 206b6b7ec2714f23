//! The trailed stores.
mod bindings;
mod diseqs;
mod shapes;
