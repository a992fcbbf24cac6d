// `rewrite` of an assembly with others that it refers to.

use crate::commands::{listed, words_from};
use crate::rewrite::{Holder, has_the_rows, made, made_as, with_blob};
use cil_base::{Fault, U32s};
use outside_core::{MemSink, MemStore};
use program::run_words;
use std::alloc::{AllocError, Global};

/// What stands under `b.dll`, beside an assembly with a class under `a.dll`.
#[derive(Clone, Copy)]
enum Other {
    Missing,
    Empty,
    WithoutContracts,
    WithContracts,
}

fn put_other(alloc: Global, store: &mut MemStore, other: Other) -> Result<(), Fault> {
    match other {
        Other::Missing => {}
        Other::Empty => store.put_file("b.dll", b"")?,
        Other::WithoutContracts => store.put_file("b.dll", &made_as(alloc, true, false, false)?)?,
        Other::WithContracts => store.put_file("b.dll", &made_as(alloc, true, false, true)?)?,
    }
    Ok(())
}

/// Whether `rewrite --out OUT a.dll b.dll` answers this status and text, and where it is done OUT has
/// the rows of `a.dll`.
fn set_answers(
    alloc: Global,
    other: Other,
    failing: Option<u32>,
    out_name: &str,
    want: (u8, &[u8]),
) -> Result<bool, Fault> {
    let target = made(alloc, true, false)?;
    let mut store = MemStore::new(alloc, listed(alloc, failing)?);
    store.put_file("a.dll", &target)?;
    put_other(alloc, &mut store, other)?;
    let mut out = MemSink::new(alloc, 100, U32s::new(alloc))?;
    let words = words_from(alloc, &["rewrite", "--out", out_name, "a.dll", "b.dll"])?;
    let status = run_words(alloc, words.as_slice(), &mut store, &mut out);
    let is_told = status == want.0 && out.taken() == want.1;
    if want.0 != 0 {
        return Ok(is_told && store.file("a.dll") == Some(target.as_slice()));
    }
    match store.file(out_name) {
        Some(new) => Ok(is_told && has_the_rows(alloc, &target, new)),
        None => Ok(false),
    }
}

#[test]
fn sets_are_rewritten_or_refused(rt: HostRuntime) -> Result<(), Fault> {
    let done = b"ok: 2 assemblies, 0 methods, 0 clauses\n".as_slice();
    let contracts = b"refused: Z1 assembly 1 table 01 row 2 at 0\n".as_slice();
    let no_image = b"refused: P1 assembly 1 table 00 row 0 at 0\n".as_slice();
    let missing = b"store: b.dll\n".as_slice();
    let cases: [(Other, Option<u32>, &str, (u8, &[u8])); 6] = [
        (Other::WithoutContracts, None, "out", (0, done)),
        (Other::WithoutContracts, None, "b.dll", (0, done)),
        (Other::WithContracts, None, "out", (1, contracts)),
        (Other::Empty, None, "out", (1, no_image)),
        (Other::Missing, None, "out", (3, missing)),
        (Other::WithoutContracts, Some(1), "out", (3, missing)),
    ];
    for (other, failing, out_name, want) in cases {
        let told = set_answers(rt.alloc(), other, failing, out_name, want)?;
        assert!(rt; told, "at status {}", want.0);
    }
    Ok(())
}

/// The words of a rewriting of so many assemblies.
fn many_words(alloc: Global, count: u32) -> Result<Vec<String>, AllocError> {
    let mut words = words_from(alloc, &["rewrite", "--out", "out"])?;
    for _ in 0..count {
        words.push(String::from_str(alloc, "a.dll")?)?;
    }
    Ok(words)
}

/// What is answered to so many assemblies where none is there: the status, and whether the text is
/// this.
fn many_answer(alloc: Global, count: u32, want: (u8, &[u8])) -> Result<bool, Fault> {
    let mut store = MemStore::new(alloc, U32s::new(alloc));
    let mut out = MemSink::new(alloc, 100, U32s::new(alloc))?;
    let words = many_words(alloc, count)?;
    let status = run_words(alloc, words.as_slice(), &mut store, &mut out);
    Ok(status == want.0 && out.taken() == want.1)
}

#[test]
fn a_set_has_at_most_64_assemblies(rt: HostRuntime) -> Result<(), Fault> {
    let within = many_answer(rt.alloc(), 64, (3, b"store: a.dll\n"))?;
    let limit = b"refused: L2 assembly 0 table 00 row 0 at 65\n".as_slice();
    let past = many_answer(rt.alloc(), 65, (1, limit))?;
    assert!(rt; within && past);
    Ok(())
}

/// Whether two assemblies with these blobs are refused with this text, and nothing is written.
fn blobs_answer(
    alloc: Global,
    own: (Holder, &[u8]),
    other: (Holder, &[u8]),
    want: &[u8],
) -> Result<bool, Fault> {
    let mut store = MemStore::new(alloc, U32s::new(alloc));
    store.put_file("a.dll", &with_blob(alloc, own.0, own.1)?)?;
    store.put_file("b.dll", &with_blob(alloc, other.0, other.1)?)?;
    let mut out = MemSink::new(alloc, 100, U32s::new(alloc))?;
    let words = words_from(alloc, &["rewrite", "--out", "out", "a.dll", "b.dll"])?;
    let status = run_words(alloc, words.as_slice(), &mut store, &mut out);
    Ok(status == 1 && out.taken() == want && store.file("out").is_none())
}

#[test]
fn signatures_of_a_set_are_refused(rt: HostRuntime) -> Result<(), Fault> {
    let alloc = rt.alloc();
    let array: &[u8] = &[0x1D, 0x08];
    let no_item: &[u8] = &[0x1D];
    let no_local: &[u8] = &[0x07, 0x01];
    let no_locals: &[u8] = &[0x08];
    let no_text: &[u8] = &[0x01, 0x00];
    let spec = Holder::TypeSpec;
    let locals = Holder::Signature;
    let class = Holder::ContractClass;
    let cases: [((Holder, &[u8]), (Holder, &[u8]), &[u8]); 5] = [
        (
            (spec, array),
            (spec, no_item),
            b"refused: S1 assembly 1 table 1B row 1 at 1\n",
        ),
        (
            (locals, no_local),
            (spec, no_item),
            b"refused: S1 assembly 0 table 11 row 1 at 2\n",
        ),
        (
            (locals, no_locals),
            (locals, no_local),
            b"refused: S1 assembly 1 table 11 row 1 at 2\n",
        ),
        (
            (class, no_text),
            (spec, no_item),
            b"refused: S2 assembly 0 table 0C row 1 at 2\n",
        ),
        (
            (class, &[0x01, 0x00, 0x01, 0x58, 0x00, 0x00]),
            (spec, array),
            b"refused: N1 assembly 0 table 0C row 1 at 0\n",
        ),
    ];
    for (own, other, want) in cases {
        assert!(rt; blobs_answer(alloc, own, other, want)?);
    }
    Ok(())
}

/// Whether `list` of four files of 64 MiB and one of this name is refused with this text.
fn large_set_answers(
    alloc: Global,
    store: &mut MemStore,
    fifth: &str,
    want: &[u8],
) -> Result<bool, AllocError> {
    let mut out = MemSink::new(alloc, 100, U32s::new(alloc))?;
    let names = ["list", "a.dll", "a.dll", "a.dll", "a.dll", fifth];
    let words = words_from(alloc, &names)?;
    let status = run_words(alloc, words.as_slice(), store, &mut out);
    Ok(status == 1 && out.taken() == want)
}

/// Whether the fifth file is read where it is empty, and is too much where it has a byte.
fn large_sets_answer(alloc: Global) -> Result<bool, AllocError> {
    let zeros = vec![in alloc; 0u8; 0x400_0000]?;
    let mut store = MemStore::new(alloc, U32s::new(alloc));
    store.put_file("a.dll", zeros.as_slice())?;
    store.put_file("empty", b"")?;
    store.put_file("one", b"M")?;
    let no_image = b"refused: P1 assembly 0 table 00 row 0 at 0\n".as_slice();
    let sum = b"refused: L2 assembly 0 table 00 row 0 at 268435457\n".as_slice();
    Ok(
        large_set_answers(alloc, &mut store, "empty", no_image)?
            && large_set_answers(alloc, &mut store, "one", sum)?,
    )
}

#[test]
fn a_set_has_at_most_256_mebibytes(rt: HostRuntime) -> Result<(), Fault> {
    let holds = large_sets_answer(rt.alloc())?;
    assert!(rt; holds);
    Ok(())
}
