// Compressed unsigned numbers (ECMA-335, II.23.2).
use cil_base::{push_packed, read_packed};
use std::test::Fail;

#[test]
fn shortest_spellings_read_back(rt: HostRuntime) -> Result<(), Fail> {
    let cases: [(u32, &[u8]); 7] = [
        (0x03, &[0x03]),
        (0x7F, &[0x7F]),
        (0x80, &[0x80, 0x80]),
        (0x2E57, &[0xAE, 0x57]),
        (0x3FFF, &[0xBF, 0xFF]),
        (0x4000, &[0xC0, 0x00, 0x40, 0x00]),
        (0x1FFF_FFFF, &[0xDF, 0xFF, 0xFF, 0xFF]),
    ];
    for (v, spelling) in cases {
        if v < 0x2000_0000 {
            let mut out = Vec::new(rt.alloc());
            push_packed(&mut out, v)?;
            assert!(rt; out.as_slice() == spelling, "at {v}");
            assert_eq!(rt; read_packed(spelling, 0), Some((v, spelling.len() as u32)));
        }
    }
    Ok(())
}

#[test]
fn longer_spellings_and_cut_ones(rt: HostRuntime) {
    assert_eq!(rt; read_packed(&[0x80, 0x05], 0), Some((5, 2)));
    assert_eq!(rt; read_packed(&[0x80], 0), None);
    assert_eq!(rt; read_packed(&[0xE0, 0, 0, 0], 0), None);
    assert_eq!(rt; read_packed(&[1, 0xC0, 0, 1], 1), None);
    assert_eq!(rt; read_packed(&[1, 2], 1), Some((2, 1)));
    assert_eq!(rt; read_packed(&[1, 2], 3), None);
}
