//! Tests of commands over sets of assemblies that are given row by row.
#![tactic(auto)]

#[cfg(test)]
mod blobs;
#[cfg(test)]
mod circles;
#[cfg(test)]
mod code;
#[cfg(test)]
mod contracts;
#[cfg(test)]
mod generics;
#[cfg(test)]
mod owned_members;
#[cfg(test)]
mod signatures;
#[cfg(test)]
mod sources;
#[cfg(test)]
mod types;
