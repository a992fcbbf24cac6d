//! The clauses that a method's body begins with.
#![tactic(auto)]

mod block;
mod clause;
mod clauses;
mod exceptions;
mod halving;
mod labels;
mod laws;
mod locals;
mod marks;
mod method;
mod moves;
mod numbers;
mod own;
mod part_locals;
mod reach;
mod rules;

pub use block::Block;
pub use clause::{argument_type, exception_of, has_message};
pub use labels::label;
pub use laws::contract_is_unique;
pub use locals::{Locals, Use};
pub use method::own_contract;
pub use numbers::{Counted, Ended, Numbers};
pub use own::own_contract_of;
pub use part_locals::PartLocals;
pub use reach::Reach;
