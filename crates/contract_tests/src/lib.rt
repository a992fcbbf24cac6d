//! Tests of the own contracts of small bodies.
#![tactic(auto)]

#[cfg(test)]
mod bodies;
#[cfg(test)]
mod sample;
