//! The commands of the program, over any store of files and any sink for their text.
#![tactic(auto)]

mod process;
mod program;
mod reading;

pub use process::{WordsFault, run_process};
pub use program::run_words;
