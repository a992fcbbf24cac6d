//! Tests of what is below metadata, bytes and compressed numbers, and of the layers that read and write metadata:
//! columns, the root with its heaps, and tables.
#![tactic(auto)]

#[cfg(test)]
mod bytes;
#[cfg(test)]
mod columns;
#[cfg(test)]
mod growth;
#[cfg(test)]
mod heaps;
#[cfg(test)]
mod packed;
#[cfg(test)]
mod roots;
#[cfg(test)]
mod rows;
#[cfg(test)]
mod sample;
