//! What instructions on instance fields want done.
#![tactic(auto)]

mod fields;

pub use fields::{FieldPlace, load_field, point_to_field, store_field};
