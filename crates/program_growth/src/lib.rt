//! What stays of the members, descriptions and tokens of a set's program where rows are appended to TARGET (ECMA-335, II.22).
#![tactic(auto)]

mod laws;

pub use laws::{
    grown_keeps_descriptions, grown_keeps_members, grown_keeps_program, grown_program_extends,
    grown_program_with_bodies_extends, signatures_stay,
};
