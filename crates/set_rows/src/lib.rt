//! The rows of one assembly of a set, and the types that own them (ECMA-335, II.22).
#![tactic(auto)]

mod owning;
mod rows;

pub use owning::owners;
pub use rows::Rows;
