// The streams of a root that is written, each by the bytes that it is made of.
ghost use Rattle.std.specs.Prelude.{◌≡◌, ◌+◌, ◌%◌, ◌<◌, ◌^◌, ◌++◌, ◌∷◌, [], ◌||◌, ◌==◌, length, map, codes, is_some, true, false, IfOk, OnOk, if◌then◌else◌};
ghost use Rattle.cil_base.specs.Bytes.{padding, padded};
ghost use Rattle.cli_heaps.specs.Root.{Metadata, first_named, streams};
ghost use Rattle.cli_heaps.specs.Entries.{string_at, blob_at};
ghost use Rattle.heap_writer.specs.Growth.{HeapGrowths, AllRead, KeepsUserStrings};
ghost use Rattle.heap_writer.specs.Written.{Part, Known, grown_known, new_bytes, old_part, missing_part, missing_parts, parts};

use crate::builder::HeapBuilder;
use cil_base::{padding, push_padding};
use cli_heaps::{Heaps, Stream};
use std::alloc::{AllocError, Global};
use std::marker::Model;

/// A stream that is written: bytes, others behind them, and zeros up to a multiple of 4 where it is
/// a heap.
#[derive(Drop)]
pub struct Part<'a> {
    name: &'a [u8],
    old: &'a [u8],
    added: &'a [u8],
    is_heap: bool,
}

impl<'a> Model for Part<'a> {
    ghost use Rattle.std.specs.Prelude.{◌++◌, if◌then◌else◌};
    ghost use Rattle.cil_base.specs.Bytes.{padded};
    ghost use Rattle.heap_writer.specs.Written.{Part};

    ghost Value = { Part };

    ghost view = { λ p. record { name = p.name.now; bytes = if p.is_heap then padded 4 (p.old.now ++ p.added.now) else p.old.now ++ p.added.now } };
}

impl<'a> Part<'a> {
    fn whole(name: &'a [u8], bytes: &'a [u8]) -> Part<'a>
        ensures { result ≡ record { name = name.now; bytes = bytes.now } }
    {
        Part {
            name,
            old: bytes,
            added: &[],
            is_heap: false,
        }
    }

    fn heap(name: &'a [u8], old: &'a [u8], added: &'a [u8]) -> Part<'a>
        ensures { result ≡ record { name = name.now; bytes = padded 4 (old.now ++ added.now) } }
    {
        Part {
            name,
            old,
            added,
            is_heap: true,
        }
    }

    pub fn name(&self) -> &'a [u8]
        ensures { result.now ≡ self.now.name }
    {
        self.name
    }

    /// How many bytes it has.
    pub fn size(&self) -> usize
        requires { length self.now.bytes < 2 ^ 32 }
        ensures { result ≡ length self.now.bytes }
    {
        let len = self.old.len() + self.added.len();
        if self.is_heap {
            len + padding(4, len)
        } else {
            len
        }
    }

    /// Appends the bytes, and zeros up to a multiple of 4.
    pub fn push_padded(&self, out: &mut Vec<u8>) -> Result<(), AllocError>
        requires { length out.old.items % 4 ≡ 0 }
        ensures { OnOk result (out.new.items ≡ out.old.items ++ padded 4 self.now.bytes) }
    {
        out.extend_from_slice(self.old)?;
        out.extend_from_slice(self.added)?;
        push_padding(out, 4)
    }
}

/// An old stream with its new bytes; an unknown one keeps its own.
fn old_part<'a>(
    heaps: &Heaps<'a>,
    grown: &'a HeapBuilder,
    tables: &'a [u8],
    stream: &Stream<'a>,
) -> Part<'a>
    ensures { result ≡ old_part heaps.now.bytes (grown_known heaps.now.bytes grown.now tables.now) stream.now }
{
    let name = stream.name();
    if stream.is_named(b"#~") {
        Part::whole(name, tables)
    } else if stream.is_named(b"#Strings") {
        Part::heap(name, heaps.strings(), grown.strings_added())
    } else if stream.is_named(b"#US") {
        Part::heap(name, heaps.user_strings(), grown.user_strings_added())
    } else if stream.is_named(b"#GUID") {
        Part::heap(name, heaps.guids(), &[])
    } else if stream.is_named(b"#Blob") {
        Part::heap(name, heaps.blobs(), grown.blobs_added())
    } else {
        Part::whole(name, heaps.stream_bytes(stream))
    }
}

fn old_parts<'a>(
    alloc: Global,
    heaps: &Heaps<'a>,
    grown: &'a HeapBuilder,
    tables: &'a [u8],
) -> Result<Vec<Part<'a>>, AllocError>
    ensures { IfOk result (λ v. v.items ≡ map (old_part heaps.now.bytes (grown_known heaps.now.bytes grown.now tables.now)) (streams heaps.now.bytes)) }
{
    let mut parts = Vec::new(alloc);
    let streams = heaps.streams(alloc)?;
    for stream in streams.as_slice() {
        parts.push(old_part(heaps, grown, tables, stream))?;
    }
    Ok(parts)
}

/// Whether a heap is missing and gains an entry.
pub fn is_missing(heaps: &Heaps<'_>, name: &[u8], added: &[u8]) -> bool
    ensures { result ≡ (if is_some (first_named heaps.now.bytes name.now) || (length added.now == 0) then false else true) }
{
    !(heaps.has_stream(name) || added.is_empty())
}

/// Appends a heap where it is missing and gains an entry.
fn push_missing<'a>(
    parts: &mut Vec<Part<'a>>,
    heaps: &Heaps<'_>,
    name: &'a [u8],
    old: &'a [u8],
    added: &'a [u8],
) -> Result<(), AllocError>
    ensures { OnOk result (parts.new.items ≡ parts.old.items ++ missing_part heaps.now.bytes name.now added.now (padded 4 (old.now ++ added.now))) }
{
    if is_missing(heaps, name, added) {
        parts.push(Part::heap(name, old, added))?;
    }
    Ok(())
}

/// The streams in their order: those of the old root, and then the heaps that were missing.
pub fn all_parts<'a>(
    alloc: Global,
    heaps: &Heaps<'a>,
    grown: &'a HeapBuilder,
    tables: &'a [u8],
) -> Result<Vec<Part<'a>>, AllocError>
    ensures parts { IfOk result (λ v. v.items ≡ parts heaps.now.bytes grown.now tables.now) }
    ensures user_strings { OnOk result (KeepsUserStrings grown.now.user_strings) }
    ensures read { OnOk result (AllRead string_at grown.now.strings × AllRead blob_at grown.now.blobs × AllRead blob_at grown.now.user_strings) }
{
    let mut parts = old_parts(alloc, heaps, grown, tables)?;
    let added = grown.strings_added();
    push_missing(&mut parts, heaps, b"#Strings", heaps.strings(), added)?;
    let added = grown.user_strings_added();
    push_missing(&mut parts, heaps, b"#US", heaps.user_strings(), added)?;
    let added = grown.blobs_added();
    push_missing(&mut parts, heaps, b"#Blob", heaps.blobs(), added)?;
    Ok(parts)
}
