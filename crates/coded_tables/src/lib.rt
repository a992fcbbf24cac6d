//! What the coded types of an assembly lead to, as data: types of a program by identity, kinds, and
//! numbers of parameters (ECMA-335, II.22).
#![tactic(auto)]

mod assemblies;
mod base_kinds;
mod counts;
mod references;
mod types;

pub use assemblies::coded_types;
pub use base_kinds::kinds;
pub use counts::{GenericCounts, generic_counts};
pub use types::type_by_id;
