//! The rules on the members of a set, and on arguments and parameters in signatures (ECMA-335,
//! II.9.2, II.22.15, II.22.20, II.22.25 to II.22.29): the first row of a table that breaks one.
#![tactic(auto)]

mod generic_params;
mod parameters;
mod signatures;

pub use generic_params::{generics, set_generics};
pub use parameters::parameter_counts;
pub use signatures::row_types;
