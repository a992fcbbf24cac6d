//! The rules on the members of a set of assemblies (ECMA-335, II.9.2, II.22.15, II.22.25,
//! II.22.26, II.22.34): the first row of a table that breaks one.
#![tactic(auto)]

mod early;
mod maps;
mod rows;
mod unfit;

pub use early::early_fault;
pub use maps::property_maps;
pub use rows::member_fault;
pub use unfit::{type_parameters, unfit_fault};
