//! What an instruction wants done, by its class.
#![tactic(auto)]

mod dispatch;

pub use dispatch::{Site, act};
