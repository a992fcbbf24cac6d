//! The types of signatures as a program has them (ECMA-335, II.23.2).
#![tactic(auto)]

mod coded;
mod types;

pub use coded::CodedTypes;
pub use types::{type_at, types_at};
