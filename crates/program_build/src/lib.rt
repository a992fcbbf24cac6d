//! The program of a set of assemblies: its types, fields and methods in the order of their numbers,
//! and what the tokens of its assemblies mean (ECMA-335, II.22).
#![tactic(auto)]

mod facts;
mod fields;
mod methods;
mod program;
mod rows;
mod signatures;
mod types;

pub use facts::{Known, all_known};
pub use fields::all_fields;
pub use methods::all_methods;
pub use program::program_of;
pub use types::all_types;
