//! The text of the command `list`: the types of the first of a set of assemblies, their
//! methods, and the clauses of these.
#![tactic(auto)]

mod contracts;
mod list;
mod unread;

pub use list::list_set;
