//! Own contracts of small methods, computed from the definitions.
#![tactic(auto)]

mod rows;

pub use rows::{account, broken_rules, own_contracts};
