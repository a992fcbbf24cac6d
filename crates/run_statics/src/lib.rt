//! Initializers of closed types: how far one has come, and what a run notes of it.
#![tactic(auto)]

mod copies;
mod initializers;
mod notes;

pub use initializers::{Initializer, initializer_of};
pub use notes::note_begun;
