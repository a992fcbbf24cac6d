//! The tables of metadata (ECMA-335, II.22), each kept as its columns.
#![tactic(auto)]

mod header;
mod reading;
mod rules;
mod schema;
mod sizes;
mod table;
mod tables;
mod written;

pub use schema::{CodedIndex, Column, TABLE_COUNT, columns};
pub use sizes::Sizes;
pub use tables::Tables;
