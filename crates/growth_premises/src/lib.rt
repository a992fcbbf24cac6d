//! Premises of what stays of a program where rows are appended to TARGET (ECMA-335, II.22).
#![tactic(auto)]

mod laws;

pub use laws::{
    grown_is_ranked, grown_says_alike, set_has_places, set_has_references, set_is_described,
    set_is_named, set_is_numbered,
};
