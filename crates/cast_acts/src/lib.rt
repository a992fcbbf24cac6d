//! What casts, and what takes a value out of a box, want done.
#![tactic(auto)]

mod boxes;
mod casts;

pub use boxes::{BoxOf, unbox, unbox_any};
pub use casts::{Cast, cast_class, find_cast, is_instance};
