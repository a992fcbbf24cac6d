// Entries of heaps at places, and the streams of a root.
use crate::sample::ROOT;
use cli_heaps::Heaps;
use std::alloc::{AllocError, Global};

/// What stands at a place of a heap, where the reader says the same of it in both its ways.
fn entry(heap: u8, at: u32) -> Option<&'static [u8]> {
    let Ok(heaps) = Heaps::read(&ROOT, 3) else {
        return Some(b"refused");
    };
    let (found, there) = match heap {
        b's' => (heaps.string(at), heaps.has_string(at)),
        b'b' => (heaps.blob(at), heaps.has_blob(at)),
        b'u' => (heaps.user(at), heaps.user(at).is_some()),
        _ => (heaps.guid(at), at > 0 && heaps.has_guid(at)),
    };
    if found.is_some() == there {
        found
    } else {
        Some(b"two answers")
    }
}

fn entry_is(heap: u8, at: u32, want: Option<&[u8]>) -> bool {
    match (entry(heap, at), want) {
        (Some(found), Some(wanted)) => found == wanted,
        (None, None) => true,
        _ => false,
    }
}

#[test]
fn entries_stand_at_places(rt: HostRuntime) {
    let rows: [(u8, u32, Option<&[u8]>); 16] = [
        (b's', 0, Some(b"")),
        (b's', 1, Some(b"ab")),
        (b's', 2, Some(b"b")),
        (b's', 6, Some(b"")),
        (b's', 7, None),
        (b's', 0xFFFF_FFFF, None),
        (b'b', 0, Some(b"")),
        (b'b', 1, Some(b"\x08")),
        (b'b', 2, None),
        (b'b', 4, None),
        (b'u', 1, Some(b"a\0b\0\0")),
        (b'u', 7, Some(b"")),
        (b'u', 8, None),
        (b'g', 0, None),
        (b'g', 1, Some(b"0123456789ABCDEF")),
        (b'g', 2, None),
    ];
    for (heap, at, want) in rows {
        assert!(rt; entry_is(heap, at, want), "at {at}");
    }
}

/// Whether the root tells its parts, and the sixth stream is the unknown one.
fn streams_are_told(alloc: Global) -> Result<bool, AllocError> {
    let Ok(heaps) = Heaps::read(&ROOT, 3) else {
        return Ok(false);
    };
    let streams = heaps.streams(alloc)?;
    let Some(other) = streams.get(5) else {
        return Ok(false);
    };
    Ok(
        heaps.assembly() == 3
            && heaps.metadata().len() == 180
            && heaps.tables_offset() == 116
            && heaps.tables().len() == 24
            && heaps.has_guid(0)
            && streams.len() == 6
            && other.is_named(b"#Other")
            && other.header() == 100
            && other.offset() == 176
            && other.size() == 4,
    )
}

#[test]
fn streams_of_a_root(rt: HostRuntime) -> Result<(), AllocError> {
    assert!(rt; streams_are_told(rt.alloc())?);
    Ok(())
}
