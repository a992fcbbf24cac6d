//! The text of the command `list`: the types of the first assembly of a set, and their methods.
#![tactic(auto)]

mod lines;
mod names;

pub use lines::{list_text, push_list};
