//! What a method gives back: the value that it returns, the struct that a constructor made, and what ForAll and Exists try next.
#![tactic(auto)]

mod results;
mod structs;
mod tries;

pub use results::{result_type, returned};
pub use structs::struct_made;
pub use tries::next_try;
