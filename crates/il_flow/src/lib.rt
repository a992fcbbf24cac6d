//! What a body's code does to its stack: heights, boundaries and closed ranges.
#![tactic(auto)]

mod answer;
mod begin;
mod boundary;
mod clash;
mod effect;
mod height;
mod laws;
mod lowest;
mod mark;
mod meaning;
mod method;
mod queue;
mod range;
mod search;

pub use answer::{Answers, Heights};
pub use boundary::boundaries;
pub use clash::{falls_through, goes_on};
pub use effect::{Effect, arguments_of, effect_in, meaning_in};
pub use height::{checked_heights, heights_in, offset_of};
pub use laws::{
    act_keeps_count, fault_means_no_map, search_finds_least_map, table_agrees_with_counts,
};
pub use lowest::lowered;
pub use mark::Mark;
pub use meaning::meaning_fault;
pub use method::{heights, heights_of};
pub use range::argument_before;
