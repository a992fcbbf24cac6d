//! The assemblies of a set, and the types that their rows name (ECMA-335, II.6 and II.22).
#![tactic(auto)]

mod full_names;
mod identity;
mod laws;
mod part;
mod references;
mod row_names;
mod set;

pub use identity::TypeId;
pub use laws::appended_references_keep_types;
pub use part::Part;
pub use references::{all_references, assembly_named, found_in, inside, reference};
pub use row_names::joined;
pub use set::Set;
