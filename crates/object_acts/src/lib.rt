//! What instructions on pointers, statics, new arrays and boxes want done.
#![tactic(auto)]

mod arrays;
mod boxes;
mod pointers;
mod statics;

pub use arrays::{load_length, new_array};
pub use boxes::make_boxed;
pub use pointers::{
    copy_object, initialize_object, load_indirect, load_object, store_indirect, store_object,
};
pub use statics::{StaticPlace, load_static, point_to_static, store_static};
