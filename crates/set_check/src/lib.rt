//! The checks that each command on a set of assemblies makes, TARGET first.
#![tactic(auto)]

mod check;
mod read;

pub use check::{checked_program, checked_set, first_contract_row_from};
pub use read::read_set;
