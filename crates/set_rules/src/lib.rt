//! The rules on the names of the types of a set (ECMA-335, II.22.2, II.22.10, II.22.14, II.22.38):
//! the first row of a table that breaks one.
#![tactic(auto)]

mod assemblies;
mod attributes;
mod definitions;
mod references;

pub use assemblies::assembly_fault;
pub use attributes::attribute_fault;
pub use definitions::definition_fault;
pub use references::{exported_fault, reference_fault};
