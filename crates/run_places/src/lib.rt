//! Places that pointers lead to: what stands there, and stores into them.
#![tactic(auto)]

mod cells;
mod frames;
mod objects;
mod paths;
mod pointers;
mod statics;

pub use cells::{read_in, stored_at};
pub use paths::{read_path, write_path};
pub use pointers::{read, write};
pub use statics::{default_statics, place_of_owner, place_of_static, statics_of};
