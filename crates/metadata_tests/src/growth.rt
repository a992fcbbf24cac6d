// Heaps that grow, and the root that is written with them.
use crate::sample::{ROOT, changed};
use cil_base::{Bytes, Fault, Rule, push_u16, push_u32, push_zeros};
use cli_heaps::Heaps;
use heap_writer::{HeapBuilder, write_metadata};
use std::alloc::{AllocError, Global};

fn builder_of(alloc: Global, meta: &[u8]) -> Result<HeapBuilder, Fault> {
    if meta.len() > 1000 {
        return Err(Fault::Memory(AllocError));
    }
    match Heaps::read(meta, 0) {
        Ok(heaps) => Ok(HeapBuilder::new(alloc, &heaps)?),
        Err(refusal) => Err(Fault::Refused(refusal)),
    }
}

/// Whether the texts "ab" and "-" are appended, each once, behind the sample's bytes.
fn user_strings_grow(builder: &mut HeapBuilder) -> Result<bool, Fault> {
    let text = builder.append_user(&[0x61, 0x62])?;
    let hyphen = builder.append_user(&[0x2D])?;
    let again = builder.append_user(&[0x61, 0x62])?;
    let added = builder.user_strings_added() == b"\x05a\0b\0\0\x03-\0\x01".as_slice();
    Ok(text == 8 && hyphen == 14 && again == 8 && added)
}

/// Whether the string "ab" is appended once.
fn strings_grow(builder: &mut HeapBuilder) -> Result<bool, Fault> {
    let name = builder.append_string(b"ab")?;
    let again = builder.append_string(b"ab")?;
    let added = builder.strings_added() == b"ab\0".as_slice();
    Ok(name == 8 && again == 8 && added)
}

/// Whether the blob of the byte 8 is appended once.
fn blobs_grow(builder: &mut HeapBuilder) -> Result<bool, Fault> {
    let blob = builder.append_blob(b"\x08")?;
    let again = builder.append_blob(b"\x08")?;
    let added = builder.blobs_added() == b"\x01\x08".as_slice();
    Ok(blob == 4 && again == 4 && added)
}

/// Whether a text that is appended to a `#US` without bytes stands behind a zero byte.
fn empty_heap_grows(builder: &mut HeapBuilder) -> Result<bool, Fault> {
    let at = builder.append_user(&[])?;
    Ok(at == 1 && builder.user_strings_added() == b"\0\x01\0".as_slice())
}

fn grows(alloc: Global, meta: &[u8], heap: u8) -> Result<bool, Fault> {
    let mut builder = builder_of(alloc, meta)?;
    match heap {
        b's' => strings_grow(&mut builder),
        b'b' => blobs_grow(&mut builder),
        b'u' => user_strings_grow(&mut builder),
        _ => empty_heap_grows(&mut builder),
    }
}

/// The same in the sample with another byte at a place.
fn changed_grows(alloc: Global, place: usize, bytes: &[u8], heap: u8) -> Result<bool, Fault> {
    let meta = changed(alloc, &ROOT, place, bytes)?;
    grows(alloc, &meta, heap)
}

#[test]
fn entries_are_appended_once(rt: HostRuntime) -> Result<(), Fault> {
    // the last has no byte of `#US`
    let rows: [(usize, &[u8], u8); 4] = [
        (0, b"", b's'),
        (0, b"", b'b'),
        (0, b"", b'u'),
        (60, b"\0", b'e'),
    ];
    for (place, bytes, heap) in rows {
        assert!(rt; changed_grows(rt.alloc(), place, bytes, heap)?, "of {heap}");
    }
    Ok(())
}

/// The metadata with the text "ab" appended.
fn with_text(alloc: Global, heaps: &Heaps<'_>) -> Result<Bytes, Fault> {
    let mut builder = HeapBuilder::new(alloc, heaps)?;
    builder.append_user(&[0x61, 0x62])?;
    let tables = heaps.tables();
    if tables.len() != 24 {
        return Err(Fault::Memory(AllocError));
    }
    write_metadata(alloc, heaps, &builder, tables)
}

/// The sample without `#US`, which is an unknown stream by another name, with a text appended.
fn without_user_strings(alloc: Global) -> Result<Bytes, Fault> {
    let meta = changed(alloc, &ROOT, 66, b"X")?;
    if meta.len() > 1000 {
        return Err(Fault::Memory(AllocError));
    }
    match Heaps::read(&meta, 3) {
        Ok(heaps) => with_text(alloc, &heaps),
        Err(refusal) => Err(Fault::Refused(refusal)),
    }
}

/// Whether the stream of this number has this name, and so many bytes at this place.
fn stream_is(
    alloc: Global,
    meta: &[u8],
    number: usize,
    name: &[u8],
    offset: u32,
    bytes: &[u8],
) -> Result<bool, AllocError> {
    if meta.len() > 1000 {
        return Ok(false);
    }
    let Ok(heaps) = Heaps::read(meta, 3) else {
        return Ok(false);
    };
    let streams = heaps.streams(alloc)?;
    let Some(stream) = streams.get(number) else {
        return Ok(false);
    };
    Ok(stream.is_named(name) && stream.offset() == offset && heaps.stream_bytes(stream) == bytes)
}

/// Whether a heap that was missing comes behind the others: seven headers, and 8 bytes more.
fn missing_heap_is_last(alloc: Global) -> Result<bool, Fault> {
    let new = without_user_strings(alloc)?;
    let meta = new.as_slice();
    Ok(
        meta.len() == 200
            && stream_is(alloc, meta, 2, b"#UX", 160, b"\0\x05a\0b\0\0\0")?
            && stream_is(alloc, meta, 5, b"#Other", 188, b"more")?
            && stream_is(alloc, meta, 6, b"#US", 192, b"\0\x05a\0b\0\0\0")?,
    )
}

#[test]
fn a_missing_heap_comes_behind_the_others(rt: HostRuntime) -> Result<(), Fault> {
    assert!(rt; missing_heap_is_last(rt.alloc())?);
    Ok(())
}

/// The rule and the limit of a refusal.
fn limit_of<T: Drop>(answer: Result<T, Fault>) -> Option<(Rule, u32)> {
    match answer {
        Err(Fault::Refused(refusal)) => Some((refusal.rule, refusal.at)),
        _ => None,
    }
}

/// A root of 1 MiB with `#~` and other streams, so many in all, that begin with the root and have
/// so many bytes.
fn many_streams(alloc: Global, count: u16, size: u32) -> Result<Vec<u8>, AllocError> {
    let mut meta = Vec::from_slice(alloc, b"BSJB\x01\0\x01\0\0\0\0\0\x04\0\0\0v1\0\0\0\0")?;
    push_u16(&mut meta, count)?;
    push_u32(&mut meta, 24 + 12 * u32::from(count))?;
    push_u32(&mut meta, 24)?;
    meta.extend_from_slice(b"#~\0\0")?;
    for _ in 1..count {
        push_u32(&mut meta, 0)?;
        push_u32(&mut meta, size)?;
        meta.extend_from_slice(b"#A\0\0")?;
    }
    let gap = 0x10_0000usize.saturating_sub(meta.len());
    push_zeros(&mut meta, gap)?;
    Ok(meta)
}

/// What writing such a root with one text more is refused by.
fn limit_with(alloc: Global, count: u16, size: u32) -> Result<Option<(Rule, u32)>, Fault> {
    let meta = many_streams(alloc, count, size)?;
    if meta.len() > 0x10_0000 {
        return Ok(None);
    }
    let heaps = match Heaps::read(&meta, 0) {
        Ok(heaps) => heaps,
        Err(refusal) => return Err(Fault::Refused(refusal)),
    };
    Ok(limit_of(with_text(alloc, &heaps)))
}

#[test]
fn limits_of_the_metadata(rt: HostRuntime) -> Result<(), Fault> {
    // `#US` is one stream too many; streams over each other have 149 MiB when they are written
    assert!(rt; limit_with(rt.alloc(), 65_535, 0)? == Some((Rule::L5, 65_536)));
    assert!(rt; limit_with(rt.alloc(), 150, 0x10_0000)? == Some((Rule::L6, 0x800_0001)));
    assert!(rt; limit_with(rt.alloc(), 150, 12)?.is_none());
    Ok(())
}

/// A root of an empty `#~` and a `#US` of so many empty entries, a byte each.
fn long_user_strings(alloc: Global, size: u32) -> Result<Vec<u8>, AllocError> {
    let mut meta = Vec::from_slice(alloc, b"BSJB\x01\0\x01\0\0\0\0\0\x04\0\0\0v1\0\0\0\0\x02\0")?;
    meta.extend_from_slice(b"\x30\0\0\0\x18\0\0\0#~\0\0\x48\0\0\0")?;
    push_u32(&mut meta, size)?;
    meta.extend_from_slice(b"#US\0")?;
    push_zeros(&mut meta, 24)?;
    push_zeros(&mut meta, size as usize)?;
    Ok(meta)
}

/// Appends the text "a", another text, and "a" again: the first place, the limit, and the place.
fn append_three(builder: &mut HeapBuilder) -> Result<bool, Fault> {
    let first = builder.append_user(&[0x61])?;
    let other = limit_of(builder.append_user(&[0x62]));
    let again = builder.append_user(&[0x61])?;
    Ok(first == 0xFF_FFFC && other == Some((Rule::L5, 0x100_0001)) && again == first)
}

/// Whether the text "a" fills a `#US` that has four bytes of room, and is found there again.
fn full_heap_refuses(alloc: Global) -> Result<bool, Fault> {
    let meta = long_user_strings(alloc, 0xFF_FFFC)?;
    if meta.len() > 0x200_0000 {
        return Ok(false);
    }
    match Heaps::read(&meta, 0) {
        Ok(heaps) => append_three(&mut HeapBuilder::new(alloc, &heaps)?),
        Err(refusal) => Err(Fault::Refused(refusal)),
    }
}

#[test]
fn a_full_heap_takes_no_other_text(rt: HostRuntime) -> Result<(), Fault> {
    assert!(rt; full_heap_refuses(rt.alloc())?);
    Ok(())
}
