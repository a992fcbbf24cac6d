//! Searches of a column of a table, by lanes over whole blocks and one by one over the rest.
#![tactic(auto)]

mod bounds;
mod places;

pub use bounds::all_at_most;
pub use places::places_of;

/// The entries that are compared at once.
const LANES: usize = 8;
