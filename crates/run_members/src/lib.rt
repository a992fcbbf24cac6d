//! How methods of the program are told of where they are called outside, and which of them are core members.
#![tactic(auto)]

mod classes;
mod core_members;
mod events;
mod members;
mod texts;

pub use classes::is_core_exception;
pub use core_members::{CoreMember, core_of};
pub use events::{event_params, kind_type, outside_class};
pub use members::{member_called, member_made, member_of};
pub use texts::{concatenated, equality, is_null_or_empty};
