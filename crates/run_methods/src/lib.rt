//! What a method is where it is called, and which values it is given.
#![tactic(auto)]

mod facts;
mod values;

pub use facts::{
    gives_value, has_body, is_of_reference, is_outside, is_static_method, is_use, owner_of,
    owner_type, result_under,
};
pub use values::{copied_list, delegate_values, this_value, values_behind};
