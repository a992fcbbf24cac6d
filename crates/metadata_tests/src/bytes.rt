// Bytes that are written, and pieces of bytes.
use cil_base::{
    between, bytes_from, part, push_all, push_number, push_padding, push_u16, push_u32, push_u64,
    push_zeros,
};
use std::alloc::{AllocError, Global};
use std::test::Fail;

fn written(alloc: Global) -> Result<Vec<u8>, AllocError> {
    let mut out = Vec::new(alloc);
    push_u16(&mut out, 0x0102)?;
    push_u32(&mut out, 0x0304_0506)?;
    push_u64(&mut out, 0x0708_090A_0B0C_0D0E)?;
    push_number(&mut out, 3, 0xFF11_1213)?;
    push_padding(&mut out, 8)?;
    push_zeros(&mut out, 2)?;
    push_all(&mut out, &[&[0x14, 0x15], &[], &[0x16]])?;
    Ok(out)
}

#[test]
fn numbers_zeros_and_pieces_in_turn(rt: HostRuntime) -> Result<(), Fail> {
    let out = written(rt.alloc())?;
    let wanted = [
        0x02, 0x01, 0x06, 0x05, 0x04, 0x03, 0x0E, 0x0D, 0x0C, 0x0B, 0x0A, 0x09, 0x08, 0x07, 0x13,
        0x12, 0x11, 0, 0, 0, 0, 0, 0, 0, 0, 0, 0x14, 0x15, 0x16,
    ];
    assert!(rt; out.as_slice() == wanted.as_slice());
    Ok(())
}

#[test]
fn parts_end_with_the_bytes(rt: HostRuntime) {
    assert!(rt; part(&[1, 2, 3, 4], 1, 2) == [2, 3].as_slice());
    assert!(rt; part(&[1, 2, 3, 4], 3, 9) == [4].as_slice());
    assert!(rt; between(&[1, 2, 3, 4], 1, 3) == [2, 3].as_slice());
    assert!(rt; bytes_from(&[1, 2], 5).is_empty());
}
