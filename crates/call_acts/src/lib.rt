//! What instructions on calls, functions, names and sizes want done.
#![tactic(auto)]

mod calls;
mod names;

pub use calls::{call_member, call_virtual, load_virtual_function, new_object};
pub use names::{
    copied_tys, load_function, load_size, load_token, member_name, name_of_method, name_of_type,
};
