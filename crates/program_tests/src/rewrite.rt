// `rewrite` on assemblies that are made here: whole ones, cut ones, and ones with a field changed.

use crate::commands::{listed, words_from};
use asm_gen::Builder;
use cil_base::{Fault, U32s};
use cli_heaps::Heaps;
use cli_tables::Tables;
use outside_core::{MemSink, MemStore};
use pe_image::Image;
use program::run_words;
use std::alloc::Global;

/// Where the metadata begin in a sample without code, and where `#~` begins in them.
const METADATA: usize = 0x248;

const TABLES: usize = METADATA + 108;

#[tactic(auto, unfolding(cli_tables::specs::Schema::the_tables))]
fn add_module(builder: &mut Builder, name: u32) -> Result<u32, Fault> {
    builder.row(0x00, &[0, name, 1, 0, 0])
}

#[tactic(auto, unfolding(cli_tables::specs::Schema::the_tables))]
fn add_type_ref(builder: &mut Builder, name: u32, namespace: u32) -> Result<u32, Fault> {
    builder.row(0x01, &[0, name, namespace])
}

#[tactic(auto, unfolding(cli_tables::specs::Schema::the_tables))]
fn add_type(builder: &mut Builder, name: u32) -> Result<u32, Fault> {
    builder.row(0x02, &[0, name, 0, 0, 1, 1])
}

#[tactic(auto, unfolding(cli_tables::specs::Schema::the_tables))]
fn add_method(builder: &mut Builder, name: u32, signature: u32) -> Result<u32, Fault> {
    builder.row(0x06, &[0, 0, 0x416, name, signature, 1])
}

#[tactic(auto, unfolding(cli_tables::specs::Schema::the_tables))]
fn add_assembly(builder: &mut Builder, name: u32) -> Result<u32, Fault> {
    builder.row(0x20, &[0x8004, 1, 0, 0, 0, 0, 0, name, 0])
}

/// A class with a method.
fn add_class(builder: &mut Builder, name: u32) -> Result<u32, Fault> {
    let signature = builder.blob(&[0, 0, 1])?;
    add_type(builder, name)?;
    add_method(builder, name, signature)
}

/// A reference to the class `Contract`, behind another one.
fn add_contract(builder: &mut Builder, name: u32) -> Result<u32, Fault> {
    let contract = builder.string(b"Contract")?;
    let namespace = builder.string(b"System.Diagnostics.Contracts")?;
    add_type_ref(builder, name, name)?;
    add_type_ref(builder, contract, namespace)
}

/// The finished assembly; no bytes where an index doesn't fit.
fn finished(alloc: Global, builder: Builder) -> Result<Vec<u8>, Fault> {
    if !builder.fits() {
        return Ok(Vec::new(alloc));
    }
    let bytes = builder.finish(alloc)?;
    Ok(Vec::from_slice(alloc, bytes.as_slice())?)
}

/// The name of the first assembly, or of another one.
fn add_name(builder: &mut Builder, is_other: bool) -> Result<u32, Fault> {
    if is_other {
        return builder.string(b"b");
    }
    builder.string(b"a")
}

/// Module, `<Module>` and Assembly rows; their name.
fn add_rows(builder: &mut Builder, is_other: bool) -> Result<u32, Fault> {
    let name = add_name(builder, is_other)?;
    let module = builder.string(b"<Module>")?;
    add_module(builder, name)?;
    add_type(builder, module)?;
    add_assembly(builder, name)?;
    Ok(name)
}

/// Rows, and where it is wanted a class with a method or a row of the namespace of Code Contracts.
fn add_all(
    builder: &mut Builder,
    is_other: bool,
    with_class: bool,
    with_contract: bool,
) -> Result<(), Fault> {
    let name = add_rows(builder, is_other)?;
    if with_class {
        add_class(builder, name)?;
    }
    if with_contract {
        add_contract(builder, name)?;
    }
    Ok(())
}

#[tactic(auto, unfolding(cli_tables::specs::Schema::the_tables))]
fn add_signature(builder: &mut Builder, signature: u32) -> Result<u32, Fault> {
    builder.row(0x11, &[signature])
}

#[tactic(auto, unfolding(cli_tables::specs::Schema::the_tables))]
fn add_type_spec(builder: &mut Builder, signature: u32) -> Result<u32, Fault> {
    builder.row(0x1B, &[signature])
}

#[tactic(auto, unfolding(cli_tables::specs::Schema::the_tables))]
fn add_constructor(builder: &mut Builder, name: u32, signature: u32) -> Result<u32, Fault> {
    builder.row(0x0A, &[2 * 8 + 1, name, signature])
}

#[tactic(auto, unfolding(cli_tables::specs::Schema::the_tables))]
fn add_attribute(builder: &mut Builder, value: u32) -> Result<u32, Fault> {
    builder.row(0x0C, &[32 + 3, 8 + 3, value])
}

/// A ContractClass attribute on `<Module>` with these bytes as its value.
fn add_contract_class(builder: &mut Builder, value: &[u8]) -> Result<(), Fault> {
    let class = builder.string(b"ContractClassAttribute")?;
    let namespace = builder.string(b"System.Diagnostics.Contracts")?;
    let constructor = builder.string(b".ctor")?;
    let signature = builder.blob(&[0x20, 0, 1])?;
    let value = builder.blob(value)?;
    add_type_ref(builder, class, class)?;
    add_type_ref(builder, class, namespace)?;
    add_constructor(builder, constructor, signature)?;
    add_attribute(builder, value)?;
    Ok(())
}

/// In which row a blob stands.
#[derive(Clone, Copy)]
pub(crate) enum Holder {
    Signature,
    TypeSpec,
    ContractClass,
}

/// The bytes of an assembly with a row that names this blob.
pub(crate) fn with_blob(alloc: Global, holder: Holder, blob: &[u8]) -> Result<Vec<u8>, Fault> {
    let mut builder = Builder::new(alloc)?;
    add_rows(&mut builder, false)?;
    match holder {
        Holder::Signature => {
            let signature = builder.blob(blob)?;
            add_signature(&mut builder, signature)?;
        }
        Holder::TypeSpec => {
            let signature = builder.blob(blob)?;
            add_type_spec(&mut builder, signature)?;
        }
        Holder::ContractClass => add_contract_class(&mut builder, blob)?,
    }
    finished(alloc, builder)
}

/// The bytes of an assembly, the first one or another.
pub(crate) fn made_as(
    alloc: Global,
    is_other: bool,
    with_class: bool,
    with_contract: bool,
) -> Result<Vec<u8>, Fault> {
    let mut builder = Builder::new(alloc)?;
    add_all(&mut builder, is_other, with_class, with_contract)?;
    finished(alloc, builder)
}

pub(crate) fn made(alloc: Global, with_class: bool, with_contract: bool) -> Result<Vec<u8>, Fault> {
    made_as(alloc, false, with_class, with_contract)
}

/// The bytes of an assembly of three rows, and where one is wanted, of a class with a method.
fn sample(alloc: Global, with_class: bool) -> Result<Vec<u8>, Fault> {
    made(alloc, with_class, false)
}

/// The tables of metadata; none where they break a rule.
fn tables_in(alloc: Global, metadata: &[u8]) -> Option<Tables> {
    if metadata.len() > u32::MAX as usize {
        return None;
    }
    let heaps = Heaps::read(metadata, 0).ok()?;
    Tables::read(alloc, &heaps, 0).ok()
}

/// The tables of an assembly; none where it breaks a rule.
fn tables_of(alloc: Global, bytes: &[u8]) -> Option<Tables> {
    if bytes.len() > u32::MAX as usize {
        return None;
    }
    let image = Image::read(bytes, 0).ok()?;
    tables_in(alloc, image.metadata())
}

/// Whether the two assemblies have the same rows, and the second stands in a larger image.
pub(crate) fn has_the_rows(alloc: Global, old: &[u8], new: &[u8]) -> bool {
    match (tables_of(alloc, old), tables_of(alloc, new)) {
        (Some(before), Some(after)) => {
            let mut same = old.len() < new.len();
            for table in 0..45u8 {
                for column in 0..9u8 {
                    if before.column(table, column) != after.column(table, column) {
                        same = false;
                    }
                }
            }
            same
        }
        _ => false,
    }
}

/// What `rewrite --out OUT a.dll` answers where `a.dll` holds the bytes: whether the status and the text
/// are these, and whether OUT has the rows of the bytes afterwards, where that is wanted, or `a.dll` is as
/// it was.
fn rewrite_answers(
    alloc: Global,
    bytes: &[u8],
    out_name: &str,
    failing: (Option<u32>, Option<u32>),
    want: (u8, &[u8], bool),
) -> Result<bool, Fault> {
    let mut store = MemStore::new(alloc, listed(alloc, failing.0)?);
    store.put_file("a.dll", bytes)?;
    let mut out = MemSink::new(alloc, 100, listed(alloc, failing.1)?)?;
    let words = words_from(
        alloc,
        &[
            "rewrite", "--guard", "3", "--out", out_name, "--level", "4", "a.dll",
        ],
    )?;
    let status = run_words(alloc, words.as_slice(), &mut store, &mut out);
    let is_told = status == want.0 && out.taken() == want.1;
    if want.2 {
        return match store.file(out_name) {
            Some(new) => Ok(is_told && has_the_rows(alloc, bytes, new)),
            None => Ok(false),
        };
    }
    Ok(is_told && store.file("a.dll") == Some(bytes))
}

const DONE: &[u8] = b"ok: 1 assemblies, 0 methods, 0 clauses\n";

/// The same for a sample, with or without a class and a row of contracts.
fn sample_answers(
    alloc: Global,
    (with_class, with_contract): (bool, bool),
    out_name: &str,
    failing: (Option<u32>, Option<u32>),
    want: (u8, &[u8], bool),
) -> Result<bool, Fault> {
    let bytes = made(alloc, with_class, with_contract)?;
    rewrite_answers(alloc, &bytes, out_name, failing, want)
}

#[test]
fn the_rows_are_kept(rt: HostRuntime) -> Result<(), Fault> {
    let cases = [(false, "out"), (false, "a.dll"), (true, "out")];
    for (with_class, out_name) in cases {
        let kept = sample_answers(
            rt.alloc(),
            (with_class, false),
            out_name,
            (None, None),
            (0, DONE, true),
        )?;
        assert!(rt; kept, "at {out_name}");
    }
    Ok(())
}

#[test]
fn an_assembly_with_contracts_waits(rt: HostRuntime) -> Result<(), Fault> {
    let text = b"refused: Z1 assembly 0 table 01 row 2 at 0\n";
    let refused = sample_answers(
        rt.alloc(),
        (false, true),
        "out",
        (None, None),
        (1, text, false),
    )?;
    assert!(rt; refused);
    Ok(())
}

#[test]
fn failing_calls_of_rewrite_are_told(rt: HostRuntime) -> Result<(), Fault> {
    let store = b"store: a.dll\n".as_slice();
    let cases: [((Option<u32>, Option<u32>), (u8, &[u8], bool)); 4] = [
        ((Some(0), None), (3, store, false)),
        ((Some(1), None), (3, store, false)),
        ((None, Some(0)), (4, b"", true)),
        ((Some(1), Some(0)), (4, b"", false)),
    ];
    for (failing, want) in cases {
        let told = sample_answers(rt.alloc(), (false, false), "a.dll", failing, want)?;
        assert!(rt; told, "at status {}", want.0);
    }
    Ok(())
}

/// What is answered where `a.dll` is missing.
fn missing_answers(alloc: Global) -> Result<bool, Fault> {
    let mut store = MemStore::new(alloc, U32s::new(alloc));
    let mut out = MemSink::new(alloc, 100, U32s::new(alloc))?;
    let words = words_from(alloc, &["rewrite", "--out", "a.dll", "a.dll"])?;
    let status = run_words(alloc, words.as_slice(), &mut store, &mut out);
    Ok(status == 3 && out.taken() == b"store: a.dll\n".as_slice())
}

#[test]
fn a_missing_assembly_is_told(rt: HostRuntime) -> Result<(), Fault> {
    let told = missing_answers(rt.alloc())?;
    assert!(rt; told);
    Ok(())
}

/// Whether `rewrite` of the bytes is refused with a text that begins so, and leaves the files.
fn is_refused(alloc: Global, bytes: &[u8], text: &[u8]) -> Result<bool, Fault> {
    let mut store = MemStore::new(alloc, U32s::new(alloc));
    store.put_file("a.dll", bytes)?;
    let mut out = MemSink::new(alloc, 100, U32s::new(alloc))?;
    let words = words_from(alloc, &["rewrite", "--out", "out.dll", "a.dll"])?;
    let status = run_words(alloc, words.as_slice(), &mut store, &mut out);
    Ok(
        status == 1
            && out.taken().starts_with(text)
            && store.file("a.dll") == Some(bytes)
            && store.file("out.dll").is_none(),
    )
}

/// The same for a sample with some bytes written over.
fn is_refused_with(
    alloc: Global,
    with_class: bool,
    changes: &[(usize, u8)],
    text: &[u8],
) -> Result<bool, Fault> {
    let mut bytes = sample(alloc, with_class)?;
    for (at, byte) in changes {
        match bytes.get_mut(*at) {
            Some(place) => *place = *byte,
            None => return Ok(false),
        }
    }
    is_refused(alloc, &bytes, text)
}

/// Up to which length a cut image is refused so.
const CUTS: [(usize, &[u8]); 7] = [
    (2, b"refused: P1 assembly 0 table 00 row 0 at 0\n"),
    (64, b"refused: P6 assembly 0 table 00 row 0 at 60\n"),
    (132, b"refused: P1 assembly 0 table 00 row 0 at 128\n"),
    (136, b"refused: P6 assembly 0 table 00 row 0 at 134\n"),
    (150, b"refused: P6 assembly 0 table 00 row 0 at 148\n"),
    (154, b"refused: P6 assembly 0 table 00 row 0 at 152\n"),
    (0x800, b"refused: P"),
];

/// Whether each cut of the sample is refused as the table says.
fn cuts_are_refused(alloc: Global) -> Result<bool, Fault> {
    let bytes = sample(alloc, false)?;
    let mut holds = bytes.len() == 0x800;
    let mut len = 0;
    for (end, text) in CUTS {
        for shorter in len..end {
            if shorter < bytes.len() && !is_refused(alloc, &bytes[..shorter], text)? {
                holds = false;
            }
        }
        len = end;
    }
    Ok(holds)
}

#[test]
fn every_cut_image_is_refused(rt: HostRuntime) -> Result<(), Fault> {
    let refused = cuts_are_refused(rt.alloc())?;
    assert!(rt; refused);
    Ok(())
}

#[test]
fn a_changed_field_is_refused(rt: HostRuntime) -> Result<(), Fault> {
    let cases: [(bool, &[(usize, u8)], &[u8]); 5] = [
        // .reloc's VirtualAddress as .rsrc's
        (
            true,
            &[(0x1D5, 0x40)],
            b"refused: P3 assembly 0 table 00 row 0 at 456\n",
        ),
        // Module.Name
        (
            true,
            &[(TABLES + 42, 0xFF), (TABLES + 43, 0xFF)],
            b"refused: M7 assembly 0 table 00 row 1 at 1\n",
        ),
        // Extends of the first TypeDef row names the ninth TypeRef row
        (
            true,
            &[(TABLES + 58, 37)],
            b"refused: M5 assembly 0 table 02 row 1 at 3\n",
        ),
        // MethodList of the first TypeDef row
        (
            true,
            &[(TABLES + 62, 2)],
            b"refused: M6 assembly 0 table 02 row 2 at 5\n",
        ),
        // the size of `#~` 80 in place of 84
        (
            false,
            &[(METADATA + 36, 80)],
            b"refused: M4 assembly 0 table 20 row 1 at 0\n",
        ),
    ];
    for (with_class, changes, text) in cases {
        let refused = is_refused_with(rt.alloc(), with_class, changes, text)?;
        assert!(rt; refused);
    }
    Ok(())
}
