//! Tests of instructions and bodies: read, written, copied, and the table of instructions.
#![tactic(auto)]

#[cfg(test)]
mod copies;
#[cfg(test)]
mod read;
#[cfg(test)]
mod table;
#[cfg(test)]
mod write;
