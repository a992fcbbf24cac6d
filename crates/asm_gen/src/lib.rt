//! Assemblies made from rows, heap entries and code.
#![tactic(auto)]

mod blank;
mod builder;
mod image;

pub use builder::Builder;
