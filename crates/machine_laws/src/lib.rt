//! Laws of the machine: what runs tell, the parts of a call with contracts, and same behaviour.
#![tactic(auto)]

mod behaviour;
mod full;
mod growth;
mod parts;
mod simulation;

pub use behaviour::{Rewriting, behaves_as_itself, same_behaviour, traces_grow};
pub use full::full_heap_is_told_first;
pub use growth::{
    added_names, answers_stay, deep_exceptions, grown_keeps_identities, kinds_belong_to_names,
    looks_far_enough,
};
pub use parts::call_goes_by_parts;
pub use simulation::{Simulation, lifting};
