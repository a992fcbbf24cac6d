//! Frames of calls: arguments by their types, locals at their default values.
#![tactic(auto)]

mod arguments;
mod calls;
mod frames;
mod parameters;
mod types;

pub use arguments::stored_args;
pub use calls::{are_full, pop_frame, push_frame};
pub use frames::{default_cells, new_frame};
pub use parameters::{param_types, this_type};
