//! Look-ups of types and methods over a program: subtypes, the body of a virtual call, the sources
//! of a method, and whether it is visible.
#![tactic(auto)]

mod bases;
mod built_in;
mod chain;
mod dispatch;
mod implemented;
mod overridden;
mod rows;
mod shapes;
mod slots;
mod sources;
mod subtype;
mod types;
mod visible;

pub use bases::{args_of, base_of, definition_of, interfaces_of};
pub use chain::{bases_of, chain_of};
pub use dispatch::find_virtual;
pub use sources::sources_of;
pub use subtype::is_subtype;
pub use types::{all_under, are_same, has_parameter, have_parameter, is_same, ty_under};
pub use visible::is_visible;
