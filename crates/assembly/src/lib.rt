//! One assembly that has been read: its image, heaps and tables.
#![tactic(auto)]

mod assembly;

pub use assembly::Assembly;
