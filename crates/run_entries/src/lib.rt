//! The method that a run begins with, and the arguments that it is given.
#![tactic(auto)]

mod arguments;
mod entries;

pub use arguments::{takes, takes_all};
pub use entries::{called, entry_of, may_begin};
