//! An assembly without contracts, written anew.
#![tactic(auto)]

mod contract_rows;
mod rewrite;

pub use contract_rows::first_contract_row;
pub use rewrite::rewrite_assembly;
