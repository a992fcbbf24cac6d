// `list` of assemblies that are made here.

use crate::commands::{listed, words_from};
use crate::rewrite::{made, made_as};
use cil_base::{Fault, U32s};
use outside_core::{MemSink, MemStore};
use program::run_words;
use std::alloc::{AllocError, Global};

/// The lines of an assembly with a class with a method.
const LINES: &[u8] = b"type 02000001 <Module>\ntype 02000002 a\nmethod 06000001 a\n";

/// Whether `list a.dll b.dll` answers this status and text, where `a.dll` has a class and `b.dll` has
/// none; both are as they were.
fn list_answers(
    alloc: Global,
    failing: (Option<u32>, Option<u32>),
    want: (u8, &[u8]),
) -> Result<bool, Fault> {
    let target = made(alloc, true, false)?;
    let other = made_as(alloc, true, false, false)?;
    let mut store = MemStore::new(alloc, listed(alloc, failing.0)?);
    store.put_file("a.dll", &target)?;
    store.put_file("b.dll", &other)?;
    let mut out = MemSink::new(alloc, 100, listed(alloc, failing.1)?)?;
    let words = words_from(alloc, &["list", "a.dll", "b.dll"])?;
    let status = run_words(alloc, words.as_slice(), &mut store, &mut out);
    let is_kept = store.file("a.dll") == Some(target.as_slice())
        && store.file("b.dll") == Some(other.as_slice());
    Ok(is_kept && status == want.0 && out.taken() == want.1)
}

#[test]
fn types_and_methods_are_listed(rt: HostRuntime) -> Result<(), Fault> {
    // There is no third call of the store, since nothing is written.
    let cases: [(Option<u32>, Option<u32>, u8, &[u8]); 6] = [
        (None, None, 0, LINES),
        (Some(0), None, 3, b"store: a.dll\n"),
        (Some(1), None, 3, b"store: b.dll\n"),
        (Some(2), None, 0, LINES),
        (None, Some(0), 4, b""),
        (Some(0), Some(0), 4, b""),
    ];
    for (store, sink, status, text) in cases {
        let holds = list_answers(rt.alloc(), (store, sink), (status, text))?;
        assert!(rt; holds, "at status {status}");
    }
    Ok(())
}

/// Whether `list` of one assembly answers this status and text.
fn one_answer(alloc: Global, bytes: &[u8], want: (u8, &[u8])) -> Result<bool, Fault> {
    let mut store = MemStore::new(alloc, U32s::new(alloc));
    store.put_file("a.dll", bytes)?;
    let mut out = MemSink::new(alloc, 100, U32s::new(alloc))?;
    let words = words_from(alloc, &["list", "a.dll"])?;
    let status = run_words(alloc, words.as_slice(), &mut store, &mut out);
    Ok(status == want.0 && out.taken() == want.1)
}

/// The line of an assembly without a class.
const MODULE: &[u8] = b"type 02000001 <Module>\n";

/// An assembly of three rows, one that names the class of contracts besides, and none.
fn answers_of_one(alloc: Global) -> Result<bool, Fault> {
    let least = made(alloc, false, false)?;
    let with_contracts = made(alloc, false, true)?;
    let no_image = b"refused: P1 assembly 0 table 00 row 0 at 0\n".as_slice();
    let is_listed = one_answer(alloc, &least, (0, MODULE))?;
    let is_read = one_answer(alloc, &with_contracts, (0, MODULE))?;
    let is_unread = one_answer(alloc, b"", (1, no_image))?;
    Ok(is_listed && is_read && is_unread)
}

#[test]
fn one_assembly_is_listed_or_refused(rt: HostRuntime) -> Result<(), Fault> {
    let holds = answers_of_one(rt.alloc())?;
    assert!(rt; holds);
    Ok(())
}

/// Whether `list a.dll b.dll` refuses `b.dll`, which names the class of contracts.
fn other_contracts_wait(alloc: Global) -> Result<bool, Fault> {
    let mut store = MemStore::new(alloc, U32s::new(alloc));
    store.put_file("a.dll", &made(alloc, false, true)?)?;
    store.put_file("b.dll", &made_as(alloc, true, false, true)?)?;
    let mut out = MemSink::new(alloc, 100, U32s::new(alloc))?;
    let words = words_from(alloc, &["list", "a.dll", "b.dll"])?;
    let status = run_words(alloc, words.as_slice(), &mut store, &mut out);
    let text = b"refused: Z1 assembly 1 table 01 row 2 at 0\n".as_slice();
    Ok(status == 1 && out.taken() == text)
}

#[test]
fn contracts_of_another_assembly_wait(rt: HostRuntime) -> Result<(), Fault> {
    let holds = other_contracts_wait(rt.alloc())?;
    assert!(rt; holds);
    Ok(())
}

/// What `list` answers to so many assemblies where none is there: whether it is this status and text.
fn many_answer(alloc: Global, count: u32, want: (u8, &[u8])) -> Result<bool, AllocError> {
    let mut store = MemStore::new(alloc, U32s::new(alloc));
    let mut out = MemSink::new(alloc, 100, U32s::new(alloc))?;
    let mut words = words_from(alloc, &["list"])?;
    for _ in 0..count {
        words.push(String::from_str(alloc, "a.dll")?)?;
    }
    let status = run_words(alloc, words.as_slice(), &mut store, &mut out);
    Ok(status == want.0 && out.taken() == want.1)
}

#[test]
fn at_most_64_assemblies_are_listed(rt: HostRuntime) -> Result<(), Fault> {
    let within = many_answer(rt.alloc(), 64, (3, b"store: a.dll\n"))?;
    let limit = b"refused: L2 assembly 0 table 00 row 0 at 65\n".as_slice();
    let past = many_answer(rt.alloc(), 65, (1, limit))?;
    assert!(rt; within && past);
    Ok(())
}
