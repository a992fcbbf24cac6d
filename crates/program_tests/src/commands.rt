// Whole commands over files and a sink in memory.

use cil_base::{Bytes, U32s};
use outside_core::{MemSink, MemStore, ReadRefusal, Store, StoreRefusal};
use program::{WordsFault, run_process, run_words};
use std::alloc::{AllocError, Global};
use std::test::Fail;

/// A body with one call of Requires, and its rewriting.
const CHECKED: [u8; 14] = [
    0x36, 0x02, 0x16, 0xFE, 0x02, 0x28, 0x01, 0x00, 0x00, 0x0A, 0x02, 0x17, 0x58, 0x2A,
];

const REWRITTEN: [u8; 20] = [
    0x4E, 0x02, 0x16, 0xFE, 0x02, 0x3A, 0x06, 0x00, 0x00, 0x00, 0x16, 0x28, 0x02, 0x00, 0x00, 0x0A,
    0x02, 0x17, 0x58, 0x2A,
];

pub fn words_from(alloc: Global, texts: &[&str]) -> Result<Vec<String>, AllocError> {
    let mut words = Vec::new(alloc);
    for text in texts {
        words.push(String::from_str(alloc, text)?)?;
    }
    Ok(words)
}

pub fn listed(alloc: Global, call: Option<u32>) -> Result<U32s, AllocError> {
    let mut calls = U32s::new(alloc);
    if let Some(call) = call {
        calls.push(call)?;
    }
    Ok(calls)
}

/// Runs `body in OUT` where `in` holds the bytes, and says whether this is the status, the text, and
/// what OUT holds then.
fn body_answers(
    alloc: Global,
    input: &[u8],
    out_name: &str,
    failing: (Option<u32>, Option<u32>),
    want: (u8, &[u8], Option<&[u8]>),
) -> Result<bool, AllocError> {
    let mut store = MemStore::new(alloc, listed(alloc, failing.0)?);
    store.put_file("in", input)?;
    let mut out = MemSink::new(alloc, 100, listed(alloc, failing.1)?)?;
    let words = words_from(alloc, &["body", "in", out_name])?;
    let status = run_words(alloc, words.as_slice(), &mut store, &mut out);
    Ok(status == want.0 && out.taken() == want.1 && store.file(out_name) == want.2)
}

#[test]
fn a_call_becomes_a_check(rt: HostRuntime) -> Result<(), Fail> {
    for out_name in ["out", "in"] {
        let done = (
            0,
            b"body: 1 clauses\n".as_slice(),
            Some(REWRITTEN.as_slice()),
        );
        let holds = body_answers(rt.alloc(), &CHECKED, out_name, (None, None), done)?;
        assert!(rt; holds, "at {out_name}");
    }
    Ok(())
}

#[test]
fn a_body_without_a_call_is_written_as_it_was(rt: HostRuntime) -> Result<(), Fail> {
    let bytes = [0x0E, 0x17, 0x16, 0x2A];
    let done = (0, b"body: 0 clauses\n".as_slice(), Some(bytes.as_slice()));
    let same = body_answers(rt.alloc(), &bytes, "out", (None, None), done)?;
    assert!(rt; same);
    Ok(())
}

#[test]
fn calls_at_the_edge(rt: HostRuntime) -> Result<(), Fail> {
    let cases: [(&[u8], &[u8]); 2] = [
        // `add` takes more than there is, and the height between instructions is 0.
        (
            &[0x26, 0x17, 0x58, 0x17, 0x28, 1, 0, 0, 0x0A, 0x2A],
            &[
                0x3E, 0x17, 0x58, 0x17, 0x3A, 6, 0, 0, 0, 0x16, 0x28, 2, 0, 0, 0x0A, 0x2A,
            ],
        ),
        // The call is the last instruction, and the branch leads to a `nop`.
        (
            &[0x1A, 0x17, 0x28, 1, 0, 0, 0x0A],
            &[
                0x36, 0x17, 0x3A, 6, 0, 0, 0, 0x16, 0x28, 2, 0, 0, 0x0A, 0x00,
            ],
        ),
    ];
    for (input, output) in cases {
        let done = (0, b"body: 1 clauses\n".as_slice(), Some(output));
        let holds = body_answers(rt.alloc(), input, "out", (None, None), done)?;
        assert!(rt; holds, "at {input:?}");
    }
    Ok(())
}

/// Whether 55 `nop` between a tiny header and a call get a fat header.
fn grows_to_fat(alloc: Global) -> Result<bool, AllocError> {
    let mut input = Vec::from_slice(alloc, &[0xFE])?;
    let mut output = Vec::from_slice(alloc, &[3, 0x30, 8, 0, 0x45, 0, 0, 0, 0, 0, 0, 0])?;
    for _ in 0..55 {
        input.push(0)?;
        output.push(0)?;
    }
    input.extend_from_slice(&[0x17, 0x28, 1, 0, 0, 0x0A, 0x16, 0x2A])?;
    output.extend_from_slice(&[
        0x17, 0x3A, 6, 0, 0, 0, 0x16, 0x28, 2, 0, 0, 0x0A, 0x16, 0x2A,
    ])?;
    let done = (0, b"body: 1 clauses\n".as_slice(), Some(output.as_slice()));
    body_answers(alloc, input.as_slice(), "out", (None, None), done)
}

#[test]
fn sixty_three_bytes_get_a_fat_header(rt: HostRuntime) -> Result<(), Fail> {
    let grown = grows_to_fat(rt.alloc())?;
    assert!(rt; grown);
    Ok(())
}

#[test]
fn broken_bodies_are_refused(rt: HostRuntime) -> Result<(), Fail> {
    let i5 = b"refused: I5 assembly 0 table 00 row 0 at 0\n".as_slice();
    let i1 = b"refused: I1 assembly 0 table 00 row 0 at 0\n".as_slice();
    let i2 = b"refused: I2 assembly 0 table 00 row 0 at 0\n".as_slice();
    let i1_later = b"refused: I1 assembly 0 table 00 row 0 at 2\n".as_slice();
    let c2 = b"refused: C2 assembly 0 table 00 row 0 at 0\n".as_slice();
    let c2_later = b"refused: C2 assembly 0 table 00 row 0 at 2\n".as_slice();
    let c1 = b"refused: C1 assembly 0 table 00 row 0 at 7\n".as_slice();
    let cases: [(&[u8], &[u8]); 12] = [
        (&[], i5),
        // The header says four bytes and five follow, or three.
        (&[0x12, 0x20, 5, 0, 0, 0x2A], i5),
        (&[0x12, 0x17, 0x16, 0x2A], i5),
        (&[0x03, 0x30], i5),
        (&[0x06, 0x2B], i1),
        (&[0x06, 0x1F], i2),
        (&[0x0E, 0x00, 0x00, 0x2B], i1_later),
        // A call of another member.
        (&[0x16, 0x28, 2, 0, 0, 0x0A], i1),
        (&[0x1A, 0x28, 1, 0, 0, 0x0A, 0x2A], c2),
        // `pop` makes a height below 0.
        (&[0x1E, 0x26, 0x17, 0x28, 1, 0, 0, 0x0A], c2_later),
        // Two values, and a `ret` before the call.
        (&[0x1E, 0x17, 0x17, 0x28, 1, 0, 0, 0x0A], c2_later),
        (
            &[
                0x36, 0x17, 0x28, 1, 0, 0, 0x0A, 0x17, 0x28, 1, 0, 0, 0x0A, 0x2A,
            ],
            c1,
        ),
    ];
    for (input, text) in cases {
        let holds = body_answers(rt.alloc(), input, "out", (None, None), (1, text, None))?;
        assert!(rt; holds, "at {input:?}");
    }
    Ok(())
}

#[test]
fn failing_calls_are_told(rt: HostRuntime) -> Result<(), Fail> {
    let cases: [(Option<u32>, Option<u32>, u8, &[u8], Option<&[u8]>); 4] = [
        (Some(0), None, 3, b"store: in\n", None),
        (Some(1), None, 3, b"store: out\n", None),
        (None, Some(0), 4, b"", Some(&REWRITTEN)),
        (Some(1), Some(0), 4, b"", None),
    ];
    for (store, sink, status, text, out) in cases {
        let holds = body_answers(
            rt.alloc(),
            &CHECKED,
            "out",
            (store, sink),
            (status, text, out),
        )?;
        assert!(rt; holds, "at status {status}");
    }
    Ok(())
}

/// Runs the words over no files, and says whether this is the status and the text.
fn words_answer(alloc: Global, texts: &[&str], want: (u8, &[u8])) -> Result<bool, AllocError> {
    let mut store = MemStore::new(alloc, U32s::new(alloc));
    let mut out = MemSink::new(alloc, 100, U32s::new(alloc))?;
    let words = words_from(alloc, texts)?;
    let status = run_words(alloc, words.as_slice(), &mut store, &mut out);
    Ok(status == want.0 && out.taken() == want.1)
}

#[test]
fn wrong_words_and_missing_files(rt: HostRuntime) -> Result<(), Fail> {
    let cases: [(&[&str], u8, &[u8]); 8] = [
        (&[], 2, b"words: 0\n"),
        (&["bodies", "in", "out"], 2, b"words: 0\n"),
        (&["--help"], 2, b"words: 0\n"),
        (&["body"], 2, b"words: 1\n"),
        (&["body", "-in", "out"], 2, b"words: 1\n"),
        (&["body", "in"], 2, b"words: 2\n"),
        (&["body", "in", "out", "more"], 2, b"words: 3\n"),
        (&["body", "in", "out"], 3, b"store: in\n"),
    ];
    for (texts, status, text) in cases {
        let holds = words_answer(rt.alloc(), texts, (status, text))?;
        assert!(rt; holds, "at {texts:?}");
    }
    Ok(())
}

#[test]
fn wrong_words_of_rewrite(rt: HostRuntime) -> Result<(), Fail> {
    let missing = b"store: a.dll\n".as_slice();
    let cases: [(&[&str], u8, &[u8]); 17] = [
        (&["rewrite"], 2, b"words: 1\n"),
        (&["rewrite", "a.dll"], 2, b"words: 2\n"),
        (&["rewrite", "--out"], 2, b"words: 2\n"),
        (&["rewrite", "--out", "o"], 2, b"words: 3\n"),
        (&["rewrite", "--out", "-o", "a.dll"], 2, b"words: 2\n"),
        (&["rewrite", "--out", "o", "-a.dll"], 2, b"words: 3\n"),
        (
            &["rewrite", "--out", "o", "a.dll", "-b.dll"],
            2,
            b"words: 4\n",
        ),
        (
            &["rewrite", "--out", "o", "--out", "p", "a.dll"],
            2,
            b"words: 3\n",
        ),
        (
            &["rewrite", "--mode", "plain", "--out", "o", "a.dll"],
            2,
            b"words: 1\n",
        ),
        (
            &["rewrite", "--level", "5", "--out", "o", "a.dll"],
            2,
            b"words: 2\n",
        ),
        (
            &["rewrite", "--level", "04", "--out", "o", "a.dll"],
            2,
            b"words: 2\n",
        ),
        (
            &["rewrite", "--level", "+4", "--out", "o", "a.dll"],
            2,
            b"words: 2\n",
        ),
        (
            &["rewrite", "--out", "o", "--guard", "101", "a.dll"],
            2,
            b"words: 4\n",
        ),
        (
            &["rewrite", "--out", "o", "--guard", "", "a.dll"],
            2,
            b"words: 4\n",
        ),
        (
            &["rewrite", "--out", "o", "a.dll", "--level", "4"],
            2,
            b"words: 4\n",
        ),
        (&["rewrite", "--out", "o", "a.dll"], 3, missing),
        (
            &[
                "rewrite", "--guard", "100", "--level", "0", "--out", "o", "a.dll",
            ],
            3,
            missing,
        ),
    ];
    for (texts, status, text) in cases {
        let holds = words_answer(rt.alloc(), texts, (status, text))?;
        assert!(rt; holds, "at {texts:?}");
    }
    Ok(())
}

#[test]
fn wrong_words_of_list(rt: HostRuntime) -> Result<(), Fail> {
    let cases: [(&[&str], u8, &[u8]); 5] = [
        (&["list"], 2, b"words: 1\n"),
        (&["list", "--out", "o", "a.dll"], 2, b"words: 1\n"),
        (&["list", "-a.dll"], 2, b"words: 1\n"),
        (&["list", "a.dll", "--text"], 2, b"words: 2\n"),
        (&["list", "a.dll", "b.dll"], 3, b"store: a.dll\n"),
    ];
    for (texts, status, text) in cases {
        let holds = words_answer(rt.alloc(), texts, (status, text))?;
        assert!(rt; holds, "at {texts:?}");
    }
    Ok(())
}

/// A store whose files are all too long.
#[derive(Drop)]
struct LongStore;

impl Store for LongStore {
    ghost use Rattle.std.specs.Prelude.{false, None};

    ghost tells = { λ s. false };

    ghost file = { λ s name. None };

    ghost faults = { λ s. 0 };

    ghost steady = { λ s. false };

    fn read_all(&mut self, _alloc: Global, _name: &str, _cap: u64) -> Result<Bytes, ReadRefusal> {
        Err(ReadRefusal::TooLong)
    }

    fn replace(&mut self, _alloc: Global, _name: &str, _bytes: &[u8]) -> Result<(), StoreRefusal> {
        Ok(())
    }
}

/// Whether the words are refused by L1 where each file is too long.
fn is_too_long(alloc: Global, texts: &[&str]) -> Result<bool, AllocError> {
    let text = b"refused: L1 assembly 0 table 00 row 0 at 67108865\n".as_slice();
    let mut out = MemSink::new(alloc, 100, U32s::new(alloc))?;
    let words = words_from(alloc, texts)?;
    let status = run_words(alloc, words.as_slice(), &mut LongStore, &mut out);
    Ok(status == 1 && out.taken() == text)
}

#[test]
fn long_files_are_refused(rt: HostRuntime) -> Result<(), Fail> {
    let cases: [&[&str]; 3] = [
        &["body", "in", "out"],
        &["rewrite", "--out", "out", "in"],
        &["list", "in"],
    ];
    for texts in cases {
        let holds = is_too_long(rt.alloc(), texts)?;
        assert!(rt; holds, "at {texts:?}");
    }
    Ok(())
}

/// What a process answers whose words are these, or can't be had: whether it is this status and text.
fn process_answers(
    alloc: Global,
    words: Result<Vec<String>, WordsFault>,
    want: (u8, &[u8]),
) -> Result<bool, AllocError> {
    let mut store = MemStore::new(alloc, U32s::new(alloc));
    let mut out = MemSink::new(alloc, 100, U32s::new(alloc))?;
    let status = run_process(alloc, words, &mut store, &mut out);
    Ok(status == want.0 && out.taken() == want.1)
}

fn told_words(alloc: Global) -> Result<bool, AllocError> {
    let words = words_from(alloc, &["body", "in"])?;
    process_answers(alloc, Ok(words), (2, b"words: 2\n"))
}

#[test]
fn words_of_a_process(rt: HostRuntime) -> Result<(), Fail> {
    let alloc = rt.alloc();
    let no_text = process_answers(alloc, Err(WordsFault::NoText), (2, b"words: 0\n"))?;
    let memory = process_answers(alloc, Err(WordsFault::Memory), (5, b"memory\n"))?;
    let told = told_words(alloc)?;
    assert!(rt; no_text && memory && told);
    Ok(())
}
