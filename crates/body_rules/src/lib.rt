//! The rules on the bodies of methods (ECMA-335, II.25.4 and III.1.7): of one method, of all methods
//! of an assembly, and of a set of assemblies.
#![tactic(auto)]

mod code;
mod locals;
mod method;
mod reading;
mod rows;
mod sets;

pub use method::checked_body;
pub use sets::{check_set_bodies, set_bodies};
