//! The rules on TypeSpec and MethodSpec rows (ECMA-335, II.22.29, II.22.39): the first row that
//! breaks one.
#![tactic(auto)]

mod contexts;
mod instances;
mod rows;
mod uses;

pub use rows::{method_spec_fault, type_spec_fault};
