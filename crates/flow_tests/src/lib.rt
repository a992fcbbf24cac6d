//! Tests of what bodies do to their stacks and regions.
#![tactic(auto)]

#[cfg(test)]
mod account;
#[cfg(test)]
mod bodies;
#[cfg(test)]
mod control;
#[cfg(test)]
mod stack;
