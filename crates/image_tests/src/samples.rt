// An image with three sections, as numbers at offsets of the file.
ghost use Rattle.std.specs.Prelude.{◌≡◌, IfOk, length};

use byteorder::{ByteOrder, LittleEndian};
use cil_base::{Refusal, Rule};
use std::alloc::{AllocError, Global};

pub const SIZE: usize = 0x800;

/// The parts that stand at one offset in both kinds of image: the DOS and COFF headers with symbols, the
/// alignments and sizes with a checksum, and the CLI header at 0x200 with metadata of 0x64 bytes behind it.
const FIXED: [(usize, u32); 20] = [
    (0, 0x5A4D),
    (60, 0x80),
    (0x80, 0x4550),
    (0x84, 0x3014C),
    (0x8C, 0x700),
    (0x90, 3),
    (0xB8, 0x2000),
    (0xBC, 0x200),
    (0xD0, 0x8000),
    (0xD4, 0x200),
    (0xD8, 0xABCD_EF01),
    (0x200, 72),
    (0x208, 0x2048),
    (0x20C, 0x64),
    (0x210, 9),
    (0x214, 0x0600_0001),
    (0x220, 0x2180),
    (0x224, 0x80),
    (0x248, 0x424A_5342),
    (0x3FC, 0x1234_5678),
];

/// The directories of a certificate, of debug data and of the CLI header, and the sections, of 0x200 bytes
/// each, as they stand in PE32; in PE32+ they stand 16 bytes further on.
const MOVED: [(usize, u32); 18] = [
    (0x118, 0x780),
    (0x11C, 0x80),
    (0x128, 0x2100),
    (0x12C, 0x1C),
    (0x168, 0x2000),
    (0x16C, 72),
    (0x180, 0x200),
    (0x184, 0x2000),
    (0x188, 0x200),
    (0x18C, 0x200),
    (0x1A8, 0x200),
    (0x1AC, 0x4000),
    (0x1B0, 0x200),
    (0x1B4, 0x400),
    (0x1D0, 0x200),
    (0x1D4, 0x6000),
    (0x1D8, 0x200),
    (0x1DC, 0x600),
];

/// Writes a number of four bytes, where it lies in the file.
pub fn put(bytes: &mut [u8], at: usize, value: u32) {
    if at < bytes.len() && bytes.len() - at >= 4 {
        LittleEndian::write_u32(&mut bytes[at..], value);
    }
}

pub fn put_all(bytes: &mut [u8], fields: &[(usize, u32)], further: usize) {
    for (at, value) in fields {
        put(bytes, at.saturating_add(further), *value);
    }
}

/// Headers of 0x200 bytes and three sections of as many each; the last ends the file.
pub fn sample(is_plus: bool) -> [u8; SIZE] {
    let mut bytes = [0; SIZE];
    let (size, magic, further) = if is_plus {
        (0xF0, 0x20B, 16)
    } else {
        (0xE0, 0x10B, 0)
    };
    put_all(&mut bytes, &FIXED, 0);
    put_all(&mut bytes, &[(0x94, size), (0x98, magic)], 0);
    put_all(&mut bytes, &MOVED, further);
    bytes
}

pub fn broken(rule: Rule, at: u32) -> Refusal {
    Refusal {
        rule,
        assembly: 7,
        table: 0,
        row: 0,
        at,
    }
}

/// The most bytes of a written image.
pub const SIZE_LIMIT: usize = 1 << 27;

pub fn limit(rule: Rule, at: u32) -> Refusal {
    Refusal {
        rule,
        assembly: 0,
        table: 0,
        row: 0,
        at,
    }
}

pub fn zeros(alloc: Global, len: usize) -> Result<Vec<u8>, AllocError>
    ensures { IfOk result (λ v. length v.items ≡ len) }
{
    let mut bytes = Vec::with_capacity(alloc, len)?;
    bytes.resize(len, 0)?;
    Ok(bytes)
}
