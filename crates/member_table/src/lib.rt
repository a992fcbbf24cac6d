//! The members that rows of a set of assemblies name, and their numbers (ECMA-335, II.22.15,
//! II.22.25 and II.22.26).
#![tactic(auto)]

mod bases;
mod member;
mod named;
mod names;
mod outside;
mod rules;
mod table;
mod types;

pub use member::{member_in, parent_type};
pub use named::{Found, MemberId, Named};
pub use rules::{is_missing, isnt_read, member_is_taken};
pub use table::MemberTable;
pub use types::coded_type;
