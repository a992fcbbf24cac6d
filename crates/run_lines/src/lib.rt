//! What the command `run` prints of a run, and the status that it ends with.
#![tactic(auto)]

mod results;

pub use results::{push_result, status_of};
