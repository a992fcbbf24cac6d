//! What tokens mean where an instruction runs.
#![tactic(auto)]

mod meanings;
mod nesting;
mod references;
mod tokens;

pub use meanings::meaning_under;
pub use nesting::{all_nest_within, nests_within};
pub use references::{push_ref_type, push_ref_types, ref_type};
pub use tokens::{Given, constrained_here, local_types, meaning_here, token_here};
