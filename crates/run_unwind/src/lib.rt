//! Exceptions on their way down the frames.
#![tactic(auto)]

mod ending;
mod entering;
mod initializing;
mod objects;
mod throwing;
mod unwinding;

pub use entering::{begin_handler, moved_to};
pub use initializing::fail_initializer;
pub use objects::add_object;
pub use unwinding::{Unwound, unwind, unwind_below, unwind_from};
