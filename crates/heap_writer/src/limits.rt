// The limits on a root that is written, tested before anything is allocated.
ghost use Rattle.std.specs.Prelude.{◌≡◌, ℕ, ◌+◌, ◌-◌, ◌*◌, ◌/◌, ◌%◌, ◌<◌, ◌≤◌, ◌^◌, ◌++◌, ◌∷◌, [], ◌||◌, ◌==◌, List, length, map, codes, is_some, min, if◌then◌else◌};
ghost use Rattle.cil_base.specs.Bytes.{padding, padded};
ghost use Rattle.cil_base.specs.Refusals.{first_of};
ghost use Rattle.cli_heaps.specs.Root.{first_header, first_named, streams};
ghost use Rattle.heap_writer.specs.Growth.{HeapGrowths, grown_length};
ghost use Rattle.heap_writer.specs.Written.{Part, grown_known, new_bytes, old_part, missing_part, missing_parts, parts, streams_size, written_root, heap_limits, all_limits, FitHeaps, GrewFrom};

use crate::builder::HeapBuilder;
use crate::parts::is_missing;
use cil_base::limits::{HEAP_LIMIT, IMAGE_LIMIT, STREAM_LIMIT, USER_STRING_LIMIT};
use cil_base::{Refusal, Rule, padding};
use cli_heaps::{Heaps, Stream, first_header, header_at};

/// The first heap that is over its limit, not counting the bytes that pad it.
fn full_heap(heaps: &Heaps<'_>, grown: &HeapBuilder) -> Option<Refusal>
    requires { GrewFrom heaps.now.bytes grown.now }
    ensures { result ≡ first_of (heap_limits heaps.now.bytes grown.now) }
{
    if heaps.strings().len() + grown.strings_added().len() > HEAP_LIMIT as usize {
        return Some(Refusal::limit(Rule::L5, HEAP_LIMIT));
    }
    if heaps.blobs().len() + grown.blobs_added().len() > HEAP_LIMIT as usize {
        return Some(Refusal::limit(Rule::L5, HEAP_LIMIT));
    }
    if heaps.guids().len() > HEAP_LIMIT as usize {
        return Some(Refusal::limit(Rule::L5, HEAP_LIMIT));
    }
    if heaps.user_strings().len() + grown.user_strings_added().len() > USER_STRING_LIMIT as usize {
        return Some(Refusal::limit(Rule::L5, USER_STRING_LIMIT));
    }
    None
}

// ---- the number of streams

/// 1 where a heap is missing and gains an entry.
fn count_missing(heaps: &Heaps<'_>, name: &[u8], added: &[u8]) -> usize
    ensures { result ≡ (if is_some (first_named heaps.now.bytes name.now) || (length added.now == 0) then 0 else 1) }
{
    if is_missing(heaps, name, added) { 1 } else { 0 }
}

/// How many heaps are missing and gain an entry.
fn missing_count(heaps: &Heaps<'_>, grown: &HeapBuilder) -> usize
    ensures count { (tables : List ℕ) → result ≡ length (missing_parts heaps.now.bytes grown.now (grown_known heaps.now.bytes grown.now tables)) }
    ensures few { result ≤ 3 }
{
    count_missing(heaps, b"#Strings", grown.strings_added())
        + count_missing(heaps, b"#US", grown.user_strings_added())
        + count_missing(heaps, b"#Blob", grown.blobs_added())
}

/// How many streams are written.
fn stream_count(heaps: &Heaps<'_>, grown: &HeapBuilder) -> usize
    ensures { (tables : List ℕ) → result ≡ length (parts heaps.now.bytes grown.now tables) }
{
    let (_, count) = first_header(heaps.metadata());
    usize::from(count) + missing_count(heaps, grown)
}

// ---- the number of bytes

/// How many bytes a heap has with what is added to it and the zeros that pad it.
fn padded_size(old: &[u8], added: &[u8]) -> usize
    requires { length old.now + length added.now ≤ 2 ^ 28 }
    ensures size { result ≡ length (padded 4 (old.now ++ added.now)) }
    ensures small { result < 2 ^ 29 }
{
    let len = old.len() + added.len();
    len + padding(4, len)
}

/// How many bytes take the place of those of an old stream, where `#~` has so many.
fn new_size(
    heaps: &Heaps<'_>,
    grown: &HeapBuilder,
    tables_size: usize,
    stream: &Stream<'_>,
) -> usize
    requires grew { GrewFrom heaps.now.bytes grown.now }
    requires fit { FitHeaps heaps.now.bytes grown.now }
    ensures { (tables : List ℕ) → length tables ≡ tables_size → result ≡ length (new_bytes heaps.now.bytes (grown_known heaps.now.bytes grown.now tables) stream.now) }
{
    if stream.is_named(b"#~") {
        tables_size
    } else if stream.is_named(b"#Strings") {
        padded_size(heaps.strings(), grown.strings_added())
    } else if stream.is_named(b"#US") {
        padded_size(heaps.user_strings(), grown.user_strings_added())
    } else if stream.is_named(b"#GUID") {
        padded_size(heaps.guids(), &[])
    } else if stream.is_named(b"#Blob") {
        padded_size(heaps.blobs(), grown.blobs_added())
    } else {
        heaps.stream_bytes(stream).len()
    }
}

/// How many bytes the old streams take with their headers; 2^64 - 1 stands for more.
fn old_size(heaps: &Heaps<'_>, grown: &HeapBuilder, tables_size: usize) -> usize
    requires grew { GrewFrom heaps.now.bytes grown.now }
    requires fit { FitHeaps heaps.now.bytes grown.now }
    ensures { (tables : List ℕ) → length tables ≡ tables_size → result ≡ min (streams_size (map (old_part heaps.now.bytes (grown_known heaps.now.bytes grown.now tables)) (streams heaps.now.bytes))) (2 ^ 64 - 1) }
{
    let meta = heaps.metadata();
    let (mut at, mut left) = first_header(meta);
    let mut size = 0usize;
    while left > 0 {
        let Some((stream, end)) = header_at(meta, at) else {
            return size;
        };
        let body = new_size(heaps, grown, tables_size, &stream);
        size = size
            .saturating_add(end - at + padding(4, body))
            .saturating_add(body);
        at = end;
        left -= 1;
    }
    size
}

/// How many bytes a heap takes with its header where it is missing and gains an entry.
fn missing_size(heaps: &Heaps<'_>, name: &[u8], old: &[u8], added: &[u8]) -> usize
    requires name { length name.now < 16 }
    requires fit { length old.now + length added.now ≤ 2 ^ 28 }
    ensures size { result ≡ streams_size (missing_part heaps.now.bytes name.now added.now (padded 4 (old.now ++ added.now))) }
    ensures small { result < 2 ^ 30 }
{
    if !is_missing(heaps, name, added) {
        return 0;
    }
    let size = padded_size(old, added);
    8 + 4 * (name.len() / 4 + 1) + size + padding(4, size)
}

/// How many bytes the heaps take that are missing and gain an entry.
fn all_missing_size(heaps: &Heaps<'_>, grown: &HeapBuilder) -> usize
    requires grew { GrewFrom heaps.now.bytes grown.now }
    requires fit { FitHeaps heaps.now.bytes grown.now }
    ensures size { (tables : List ℕ) → result ≡ streams_size (missing_parts heaps.now.bytes grown.now (grown_known heaps.now.bytes grown.now tables)) }
    ensures small { result < 2 ^ 32 }
{
    missing_size(heaps, b"#Strings", heaps.strings(), grown.strings_added())
        + missing_size(
            heaps,
            b"#US",
            heaps.user_strings(),
            grown.user_strings_added(),
        )
        + missing_size(heaps, b"#Blob", heaps.blobs(), grown.blobs_added())
}

/// How many bytes the metadata have; 2^64 - 1 stands for more.
fn metadata_size(heaps: &Heaps<'_>, grown: &HeapBuilder, tables_size: usize) -> usize
    requires grew { GrewFrom heaps.now.bytes grown.now }
    requires fit { FitHeaps heaps.now.bytes grown.now }
    ensures { (tables : List ℕ) → length tables ≡ tables_size → result ≡ min (length (written_root heaps.now.bytes (parts heaps.now.bytes grown.now tables))) (2 ^ 64 - 1) }
{
    let (first, _) = first_header(heaps.metadata());
    let missing = all_missing_size(heaps, grown);
    old_size(heaps, grown, tables_size).saturating_add(first + padding(4, first) + missing)
}

/// The first limit that the metadata pass with a stream `#~` of so many bytes: L5 where a heap is
/// over its limit, not counting the bytes that pad it, or where there are over 65,535 streams; L6
/// where they have over 2^27 bytes, so that no image holds them. Nothing is allocated.
pub fn first_limit(heaps: &Heaps<'_>, grown: &HeapBuilder, tables_size: usize) -> Option<Refusal>
    requires { GrewFrom heaps.now.bytes grown.now }
    ensures { (tables : List ℕ) → length tables ≡ tables_size → result ≡ first_of (all_limits heaps.now.bytes grown.now tables) }
{
    if let Some(refusal) = full_heap(heaps, grown) {
        return Some(refusal);
    }
    if stream_count(heaps, grown) > STREAM_LIMIT as usize {
        return Some(Refusal::limit(Rule::L5, STREAM_LIMIT));
    }
    if metadata_size(heaps, grown, tables_size) > IMAGE_LIMIT as usize {
        return Some(Refusal::limit(Rule::L6, IMAGE_LIMIT));
    }
    None
}
