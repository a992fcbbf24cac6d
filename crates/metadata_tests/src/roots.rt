// Metadata roots that are refused at a place.
use crate::sample::{ROOT, changed};
use cil_base::Rule;
use cli_heaps::Heaps;
use std::alloc::{AllocError, Global};

fn fault(meta: &[u8]) -> Option<(Rule, u32)> {
    if meta.len() > 1000 {
        return None;
    }
    match Heaps::read(meta, 3) {
        Ok(_) => None,
        Err(refusal) => Some((refusal.rule, refusal.at)),
    }
}

/// Whether the first bytes of the sample are refused by M1 at a place.
fn cut_is_refused(len: usize, at: u32) -> bool {
    match ROOT.get(..len) {
        Some(front) => fault(front) == Some((Rule::M1, at)),
        None => false,
    }
}

#[test]
fn cut_roots_are_refused_at_the_field(rt: HostRuntime) {
    for (len, at) in [
        (0, 0),
        (3, 0),
        (5, 4),
        (7, 6),
        (11, 8),
        (15, 12),
        (19, 16),
        (21, 20),
        (23, 22),
        // within the first stream header
        (27, 24),
        (31, 28),
        (35, 32),
        // its stream passes the end, and that of `#Other`
        (43, 24),
        (115, 24),
        (179, 100),
    ] {
        assert!(rt; cut_is_refused(len, at), "at {len}");
    }
}

/// Whether the sample with other bytes at a place is refused so, or not at all.
fn change_is_refused(
    alloc: Global,
    place: usize,
    bytes: &[u8],
    want: Option<(Rule, u32)>,
) -> Result<bool, AllocError> {
    let meta = changed(alloc, &ROOT, place, bytes)?;
    Ok(fault(&meta) == want)
}

#[test]
fn changed_roots_are_refused_at_their_place(rt: HostRuntime) -> Result<(), AllocError> {
    let rows: [(usize, &[u8], Option<(Rule, u32)>); 14] = [
        (0, b"", None),
        (0, b"X", Some((Rule::M1, 0))),
        // no `#~`, although there is a `#-`
        (33, b"-", Some((Rule::M2, 0))),
        // `#~` without its last byte, and with a table but no count
        (28, b"\x17", Some((Rule::M1, 24))),
        (124, b"\x01", Some((Rule::M1, 24))),
        // a seventh header, made of the bytes of `#~`
        (22, b"\x07", Some((Rule::M1, 116))),
        // `#Strings` passes the end
        (38, b"\x01", Some((Rule::M1, 36))),
        // `#US` ends in an entry; an entry passes it; an entry of an even length; no bytes at all
        (60, b"\x06", Some((Rule::M1, 56))),
        (149, b"\x07", Some((Rule::M1, 56))),
        (149, b"\x04", Some((Rule::M1, 56))),
        (60, b"\0", None),
        // `#Other` by a name that isn't read, by one that stands before, and so with bytes that are no entries
        (108, b"#-\0\0\0\0", Some((Rule::M3, 100))),
        (108, b"#Blob\0", Some((Rule::M2, 100))),
        (108, b"#US\0\0\0", Some((Rule::M1, 100))),
    ];
    for (place, bytes, want) in rows {
        assert!(rt;
            change_is_refused(rt.alloc(), place, bytes, want)?,
            "at {place}"
        );
    }
    Ok(())
}
