//! Images: PE files with CLI metadata (ECMA-335, II.25), read without a copy.
#![tactic(auto)]

mod cli;
mod fields;
mod growth;
mod headers;
mod image;
mod section;
mod write;

pub use cli::CliHeader;
pub use image::{Image, write_image};
