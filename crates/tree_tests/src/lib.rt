//! Tests of trees of blocks and their tables.
#![tactic(auto)]

#[cfg(test)]
mod bodies;
#[cfg(test)]
mod tables;
#[cfg(test)]
mod trees;
