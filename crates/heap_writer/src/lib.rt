//! Heaps that grow by entries behind the old ones, and the metadata root that is written with them.
#![tactic(auto)]

mod builder;
mod grown_heap;
mod limits;
mod parts;
mod text;
mod writer;

pub use builder::HeapBuilder;
pub use limits::first_limit;
pub use writer::write_metadata;
