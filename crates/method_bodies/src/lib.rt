//! The bodies of methods, read from an image at their RVAs (ECMA-335, II.22.26 and II.25.4).
#![tactic(auto)]

mod at_rva;
mod rows;

pub use at_rva::read_body;
pub use rows::{bodies, bodies_have_code, method_body};
