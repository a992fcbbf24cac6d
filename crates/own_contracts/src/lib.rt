//! The own contracts of all methods of a program (Code Contracts User Manual, section 2).
#![tactic(auto)]

mod contracts;
mod inherited;
mod order;

pub use contracts::own_contracts;
pub use inherited::first_heir;
