//! Groups of clauses that a call runs, and where a frame goes on behind them.
#![tactic(auto)]

mod arriving;
mod beginning;
mod depth;
mod taking_part;

pub use arriving::{arrive, go_at};
pub use beginning::{after_entry_piece, begin_group, begin_next, begin_rest};
pub use depth::{lower_depth, raise_depth};
