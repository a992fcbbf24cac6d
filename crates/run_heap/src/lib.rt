//! Objects of the heap, their types, and pointers into them.
#![tactic(auto)]

mod objects;
mod types;

pub use objects::{inside, number_of_next, object_of};
pub use types::is_of_type;
