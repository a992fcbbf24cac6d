//! Handlers: what a search from a place finds, what a `leave` goes through, and which handlers go on at a place.
#![tactic(auto)]

mod catching;
mod handled;
mod leaving;
mod regions;
mod search;

pub use catching::{caught_type, fits_type};
pub use handled::{innermost, keep_at};
pub use leaving::find_finally;
pub use regions::regions_of;
pub use search::{Sought, find_at, find_handler};
