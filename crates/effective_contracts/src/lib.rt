//! What holds of a call of a method: clauses of its sources, invariants, asserts.
#![tactic(auto)]

mod bases;
mod disposal;
mod facts;
mod heir;
mod late;
mod lent;

pub use heir::effective;
pub use late::adds_precondition;
pub use lent::InstanceLists;
