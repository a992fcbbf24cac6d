//! The bodies of methods, put into the program of a set (ECMA-335, II.22.26).
#![tactic(auto)]

mod filling;

pub use filling::set_bodies;
