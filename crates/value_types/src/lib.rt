//! The outside types that signatures of a set say to be value types (ECMA-335, II.23.1.16).
#![tactic(auto)]

mod coded;
mod names;
mod signatures;

pub use names::{is_value, value_names};
