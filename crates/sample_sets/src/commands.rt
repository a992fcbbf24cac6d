// What a command answers to a sample.

use crate::samples::{assemblies, image};
use cil_base::{Fault, U32s};
use outside_core::{MemSink, MemStore};
use program::run_words;
use std::alloc::{AllocError, Global};

static FILES: [&str; 4] = ["a.dll", "b.dll", "c.dll", "d.dll"];

/// Puts the assemblies of a sample under the first of the names.
fn put_files(alloc: Global, store: &mut MemStore, sample: &[&str]) -> Result<(), Fault> {
    for (name, number) in FILES.iter().zip(0..assemblies(sample)) {
        let image = image(alloc, sample, number)?;
        store.put_file(name, image.as_slice())?;
    }
    Ok(())
}

/// The words of the command, and behind them the names of so many files.
fn words_of(alloc: Global, command: &[&str], count: u32) -> Result<Vec<String>, AllocError> {
    let mut words = Vec::new(alloc);
    for word in command {
        words.push(String::from_str(alloc, word)?)?;
    }
    for name in FILES.iter().take(count as usize) {
        words.push(String::from_str(alloc, name)?)?;
    }
    Ok(words)
}

/// Whether the words are answered with this text, and with the status that goes with it.
fn words_answer(
    alloc: Global,
    words: &[String],
    store: &mut MemStore,
    want: &str,
) -> Result<bool, AllocError> {
    let mut out = MemSink::new(alloc, 1000, U32s::new(alloc))?;
    let status = run_words(alloc, words, store, &mut out);
    Ok(status == u8::from(want.starts_with("refused: ")) && out.taken() == want.as_bytes())
}

fn store_answers(
    alloc: Global,
    command: &[&str],
    count: u32,
    store: &mut MemStore,
    want: &str,
) -> Result<bool, AllocError> {
    let words = words_of(alloc, command, count)?;
    words_answer(alloc, words.as_slice(), store, want)
}

fn sample_answers(
    alloc: Global,
    command: &[&str],
    sample: &[&str],
    want: &str,
) -> Result<bool, Fault> {
    let mut store = MemStore::new(alloc, U32s::new(alloc));
    put_files(alloc, &mut store, sample)?;
    let is_told = store_answers(alloc, command, assemblies(sample), &mut store, want)?;
    Ok(is_told && store.file("out").is_some() == want.starts_with("ok: "))
}

/// Whether `list` answers this text to the assemblies of a sample, of which there are at most four, and writes nothing.
pub fn lists(alloc: Global, sample: &[&str], want: &str) -> bool {
    matches!(sample_answers(alloc, &["list"], sample, want), Ok(true))
}

/// Whether `rewrite` answers this text to the assemblies of a sample, of which there are at most four, and writes an assembly
/// just where the text says so.
pub fn rewrites(alloc: Global, sample: &[&str], want: &str) -> bool {
    matches!(
        sample_answers(alloc, &["rewrite", "--out", "out"], sample, want),
        Ok(true)
    )
}
