// A body of many instructions, decoded and encoded again and again.
ghost use Rattle.std.specs.Prelude.{◌≡◌, ◌+◌, ◌*◌, ◌<◌, ◌^◌, length, IfOk, OnOk};
ghost use Rattle.cil_model.specs.ValidBody.{IsValid};

use cil_base::{Fault, Place};
use cil_model::Body;
use il_body::{decode_body, encode_body, read_is_valid};
use std::alloc::{AllocError, Global};

/// A fat header over so many bytes of code, with a stack of 8 (ECMA-335, II.25.4.3).
fn push_header(bytes: &mut Vec<u8>, size: u32) -> Result<(), AllocError>
    ensures { OnOk result (length bytes.new.items ≡ length bytes.old.items + 12) }
{
    bytes.extend_from_slice(&[3, 0x30, 8, 0])?;
    bytes.extend_from_slice(&size.to_le_bytes())?;
    bytes.extend_from_slice(&[0; 4])
}

/// A body of four times so many instructions and one more: numbers are pushed, jumped over nothing
/// with and taken away.
fn bytes_of(alloc: Global, fours: u32) -> Result<Vec<u8>, AllocError>
    ensures { IfOk result (λ v. length v.items ≡ 13 + 12 * fours) }
{
    let mut bytes = Vec::new(alloc);
    push_header(&mut bytes, fours.wrapping_mul(12).wrapping_add(1))?;
    for _k in 0..fours {
        // ldc.i4 1000, nop, br over nothing, pop
        bytes.extend_from_slice(&[0x20, 0xE8, 3, 0, 0, 0, 0x38, 0, 0, 0, 0, 0x26])?;
    }
    bytes.push(0x2A)?;
    Ok(bytes)
}

/// The body that the bytes stand for, which can be encoded.
fn read(alloc: Global, bytes: &[u8]) -> Result<Body, Fault>
    requires { length bytes.now < 2 ^ 32 }
    ensures { IfOk result (IsValid 0) }
{
    let place = Place {
        assembly: 0,
        table: 6,
        row: 1,
    };
    read_is_valid();
    match decode_body(alloc, bytes, place) {
        Ok(body) => Ok(body),
        Err(fault) => Err(fault),
    }
}

/// The length of a body of so many instructions, after it was decoded and encoded so often; none where
/// it isn't read or too long to be one.
pub fn repeat(alloc: Global, instrs: u32, times: u32) -> Result<Option<usize>, Fault> {
    let bytes = bytes_of(alloc, instrs / 4)?;
    if bytes.len() > u32::MAX as usize {
        return Ok(None);
    }
    let mut len = bytes.len();
    for _k in 0..times {
        let body = read(alloc, &bytes)?;
        let written = encode_body(alloc, &body)?;
        len = written.len();
    }
    Ok(Some(len))
}
