//! What places of a type hold, their default values, what a store leaves in them, and copies of
//! values.
#![tactic(auto)]

mod copies;
mod defaults;
mod fields;
mod kinds;
mod layouts;
mod stores;
mod structs;

pub use copies::{copied_pointer, copied_value, copied_values};
pub use defaults::{default_of, new_default};
pub use fields::types_of_fields;
pub use kinds::storage_of;
pub use layouts::place_of_field;
pub use stores::{seen, stored_as};
pub use structs::stored_by_type;
