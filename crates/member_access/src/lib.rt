//! Which types and members the code of a type may name, by their access.
#![tactic(auto)]

mod access;
mod reader;

pub use access::{names_member, names_type};
pub use reader::{Reader, reader_of};
