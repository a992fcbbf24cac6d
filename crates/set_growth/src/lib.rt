//! What stays of the program of a set where rows are appended to TARGET (ECMA-335, II.22).
#![tactic(auto)]

mod laws;

pub use laws::{grown_keeps_names, grown_keeps_types};
