//! Calls that leave the program: which values fit a type, and what a reply that says nothing gives.
#![tactic(auto)]

mod asked;
mod asking;
mod back;
mod constructing;
mod defaults;
mod fitting;
mod fresh;
mod judging;
mod member;
mod plain;
mod references;
mod replies;

pub use asked::Asked;
pub use asking::ask;
pub use constructing::ask_new;
pub use defaults::default_reply;
pub use fitting::fits;
pub use fresh::new_fields;
pub use member::Member;
pub use references::refers_to;
