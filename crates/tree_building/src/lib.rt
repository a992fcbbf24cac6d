//! The tree of a body that breaks no rule on regions.
#![tactic(auto)]

mod adding;
mod build;
mod marks;
mod moving;
mod pieces;
mod span;
mod whole;

pub use whole::to_tree;
