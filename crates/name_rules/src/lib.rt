//! The rules on the names of a set of assemblies (ECMA-335, II.22): the first that is broken.
#![tactic(auto)]

mod assemblies;
mod rewriting;
mod tables;

pub use assemblies::name_fault;
