//! The contract calls of one body made checks.
#![tactic(auto)]

mod rewrite;
mod splice;

pub use rewrite::{RewrittenBody, rewrite_body};
pub use splice::splice_one;
