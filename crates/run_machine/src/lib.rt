//! What a run goes by: a program, contracts and the plans of its methods; and whether it goes on.
#![tactic(auto)]

mod flow;
mod listing;
mod machine;
mod methods;
mod piece;
mod plan;

pub use flow::Flow;
pub use machine::Machine;
pub use piece::Piece;
pub use plan::Plan;
