//! Tests against what others say of instructions and metadata: the tables of constants stand twice, in the code and in
//! its definitions, and one slip in both would pass every proof.
#![tactic(auto)]

#[cfg(test)]
mod assembled;
#[cfg(test)]
mod classes;
#[cfg(test)]
mod columns;
#[cfg(test)]
mod compiled;
#[cfg(test)]
mod instructions;
#[cfg(test)]
mod opcodes;
#[cfg(test)]
mod rows;
