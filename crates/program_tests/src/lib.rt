//! Tests of whole commands over files and a sink in memory.
#![tactic(auto)]

#[cfg(test)]
mod commands;
#[cfg(test)]
mod list;
#[cfg(test)]
mod rewrite;
#[cfg(test)]
mod sets;
