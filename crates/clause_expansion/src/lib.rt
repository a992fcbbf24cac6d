//! What a call of an abbreviator stands for: its clauses with the call's arguments, and their labels in
//! the method that calls it.
#![tactic(auto)]

mod clause;
mod instrs;
mod labels;
mod places;
mod site;

pub use clause::{expanded, push_expanded};
pub use labels::put_labels;
pub use site::{InstrLists, Site};
