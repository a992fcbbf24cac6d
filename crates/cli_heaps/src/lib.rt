//! The metadata root and its heaps, read from borrowed bytes.
#![tactic(auto)]

mod entries;
mod heaps;
mod root;
mod streams;

pub use heaps::Heaps;
pub use streams::{Stream, first_header, header_at};
