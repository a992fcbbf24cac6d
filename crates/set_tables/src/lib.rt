//! The tables of a set of assemblies: its types, members and coded types with their numbers
//! (ECMA-335, II.22).
#![tactic(auto)]

mod tables;

pub use tables::SetTables;
