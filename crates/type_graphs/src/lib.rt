//! Circles and long chains in graphs: which nodes lead back to themselves, and from which so many
//! steps lead.
#![tactic(auto)]

mod chains;
mod circles;
mod laws;
mod order;
mod ranking;

pub use chains::deep_nodes;
pub use circles::nodes_on_circles;
pub use laws::no_circle_is_shallow;
