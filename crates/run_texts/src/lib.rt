//! The texts of runs: values, outside calls and ends as lines, and bytes read as a text.
#![tactic(auto)]

mod print;
mod text;

pub use print::{print_item, print_outcome, print_value};
pub use text::text_of;
