//! Rewrites Code Contracts in compiled code into run-time checks.
#![tactic(auto)]

use outside_core::{FileStore, OutSink};
use program::{WordsFault, run_process};
use std::process::ExitCode;
use std::{env, io};

fn read_words(rt: &HostRuntime) -> io::Result<Vec<String>> {
    let mut words = Vec::new(rt.alloc());
    for word in env::args(rt)?.skip(1) {
        words.push(word)?;
    }
    Ok(words)
}

/// The words behind the program's name.
fn words_of(rt: &HostRuntime) -> Result<Vec<String>, WordsFault> {
    Ok(read_words(rt)?)
}

fn main(rt: HostRuntime) -> ExitCode {
    let words = words_of(&rt);
    let mut store = FileStore::new(&rt);
    let mut out = OutSink::new(&rt);
    ExitCode::from(run_process(rt.alloc(), words, &mut store, &mut out))
}
