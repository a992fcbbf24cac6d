//! The first of a set of assemblies without contracts, written anew.
#![tactic(auto)]

mod set;

pub use set::rewrite_set;
