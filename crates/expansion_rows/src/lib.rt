//! Clauses that calls of abbreviators stand for, computed from the definitions.
#![tactic(auto)]

mod rows;

pub use rows::{places, types_and_labels};
