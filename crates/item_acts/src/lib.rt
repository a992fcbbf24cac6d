//! What instructions on the items of arrays want done.
#![tactic(auto)]

mod arrays;
mod elements;
mod items;

pub use arrays::{load_element, load_typed_element, point_to_item};
pub use elements::{store_element, store_typed_element};
pub use items::{ItemPlace, item_at, item_type_of};
