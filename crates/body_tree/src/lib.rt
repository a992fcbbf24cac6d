//! Bodies as trees of blocks: the table of clauses of a tree, and one more block around code that is there.
#![tactic(auto)]

mod copies;
mod size;
mod table;
mod wrapping;

pub use table::to_clauses;
pub use wrapping::wrap;
