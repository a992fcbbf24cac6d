//! What `leave`, `endfinally` and `rethrow` do.
#![tactic(auto)]

mod leaving;
mod resuming;

pub use leaving::leave;
pub use resuming::{Resumed, resume, rethrow};
