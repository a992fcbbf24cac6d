//! The words of the program, their options, and what it prints.
#![tactic(auto)]

mod options;
mod text;
mod words;

pub use text::{text_of_done, text_of_refusal, text_of_rewrite, text_of_store, text_of_words};
pub use words::{Command, Request, command_of};
