//! Names by number, paths of rows, and names that each stand once.
#![tactic(auto)]

mod distinct;
mod names;
mod paths;

pub use distinct::DistinctNames;
pub use names::{Names, rows_by_name};
pub use paths::{note_next, path_of};
