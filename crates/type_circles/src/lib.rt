//! To which types each type of a set leads: by its base and interfaces, and by the type around it;
//! and which types lead back to themselves (ECMA-335, II.10.3, II.22.32, II.22.37).
#![tactic(auto)]

mod above;
mod around;
mod by_number;
mod entangled;
mod kinds;
mod lists;
mod structs;

pub use above::above_lists;
pub use around::around_lists;
pub use entangled::entangled_types;
pub use lists::Lists;
pub use structs::{Structs, push_structs};
