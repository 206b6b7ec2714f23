//! What has been read of an answer file, and which line may come next.

mod edge;
mod state;

pub use state::{Block, Entries, Entry, Phase, State};
