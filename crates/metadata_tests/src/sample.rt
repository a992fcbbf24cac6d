// A metadata root with six streams, and the same with other bytes at a place.
use std::alloc::{AllocError, Global};

// Six stream headers, at 24, 36, 56, 68, 84 and 100; the streams at 116, 140, 148, 156, 160 and 176.
pub static ROOT: [u8; 180] = *b"BSJB\x01\0\x01\0\0\0\0\0\x04\0\0\0v1\0\0\0\0\x06\0\
    \x74\0\0\0\x18\0\0\0#~\0\0\
    \x8C\0\0\0\x08\0\0\0#Strings\0\0\0\0\
    \x94\0\0\0\x08\0\0\0#US\0\
    \x9C\0\0\0\x04\0\0\0#Blob\0\0\0\
    \xA0\0\0\0\x10\0\0\0#GUID\0\0\0\
    \xB0\0\0\0\x04\0\0\0#Other\0\0\
    \0\0\0\0\x02\0\0\x01\0\0\0\0\0\0\0\0\0\0\0\0\0\0\0\0\
    \0ab\0cd\0x\
    \0\x05a\0b\0\0\0\
    \0\x01\x08\0\
    0123456789ABCDEF\
    more";

/// The bytes with others at a place.
pub fn changed(
    alloc: Global,
    all: &[u8],
    place: usize,
    bytes: &[u8],
) -> Result<Vec<u8>, AllocError> {
    let mut copy = Vec::from_slice(alloc, all)?;
    for (i, byte) in bytes.iter().enumerate() {
        if let Some(old) = copy.get_mut(place.saturating_add(i)) {
            *old = *byte;
        }
    }
    Ok(copy)
}
