//! The table of the members of a set, and its fields and methods by number (ECMA-335, II.22.15,
//! II.22.26 and II.22.37).
#![tactic(auto)]

mod arguments;
mod copies;
mod counts;
mod cuts;
mod kept;
mod noting;
mod numbers;
mod table;
mod types;

pub use cuts::{members_before_class, types_before_class};
pub use numbers::MemberNumbers;
pub use table::member_table;
