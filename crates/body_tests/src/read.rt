// Bodies that are read, or refused.
ghost use Rattle.std.specs.Prelude.{◌<◌, length};

use cil_base::{Fault, Place, Rule, Token};
use cil_model::{Body, Instr, Operand, Region, RegionKind};
use il_code::{body_len, decode_body};
use std::alloc::Global;

fn here() -> Place {
    Place {
        assembly: 3,
        table: 6,
        row: 9,
    }
}

/// The rule and the offset of a refusal.
fn refusal_of(alloc: Global, bytes: &[u8]) -> Option<(Rule, u32)> {
    if bytes.len() > 1000 {
        return None;
    }
    match decode_body(alloc, bytes, here()) {
        Err(Fault::Refused(r)) => Some((r.rule, r.at)),
        _ => None,
    }
}

fn is_refused(alloc: Global, bytes: &[u8], rule: Rule, at: u32) -> bool {
    matches!(refusal_of(alloc, bytes), Some((r, k)) if r == rule && k == at)
}

/// No header, a cut code, and a header with another bit.
fn headers_are_refused(alloc: Global) -> bool {
    is_refused(alloc, &[], Rule::I5, 0)
        && is_refused(alloc, &[0x0A, 0x2A], Rule::I5, 0)
        && is_refused(
            alloc,
            &[0x07, 0x30, 8, 0, 1, 0, 0, 0, 0, 0, 0, 0, 0x2A],
            Rule::I5,
            0,
        )
}

/// A code that is left out, half a code, and a cut constant.
fn codes_are_refused(alloc: Global) -> bool {
    is_refused(alloc, &[0x0A, 0x00, 0x24], Rule::I1, 1)
        && is_refused(alloc, &[0x0A, 0x00, 0xFE], Rule::I2, 1)
        && is_refused(alloc, &[0x0E, 0x00, 0x20, 0x00], Rule::I2, 1)
}

/// A branch into an operand, and one to the code's end.
fn branches_are_refused(alloc: Global) -> bool {
    is_refused(alloc, &[0x16, 0x00, 0x2B, 0x01, 0x1F, 0x05], Rule::I3, 1)
        && is_refused(alloc, &[0x0E, 0x00, 0x2B, 0x00], Rule::I3, 1)
}

#[test]
fn each_fault_has_its_rule_and_offset(rt: HostRuntime) {
    let alloc = rt.alloc();
    let all = headers_are_refused(alloc) && codes_are_refused(alloc) && branches_are_refused(alloc);
    assert!(rt; all);
}

/// Two instructions in a try, and one in a finally up to the code's end.
const SECTION: [u8; 32] = [
    0x0B, 0x30, 8, 0, 4, 0, 0, 0, 0, 0, 0, 0, 0x1F, 5, 0x26, 0xDC, 1, 16, 0, 0, 2, 0, 0, 0, 3, 3,
    0, 1, 0, 0, 0, 0,
];

/// The section with another byte.
fn with_byte(at: usize, b: u8) -> [u8; 32]
    requires { at < 32 }
{
    let mut bytes = SECTION;
    bytes[at] = b;
    bytes
}

#[test]
fn each_section_fault_has_its_rule(rt: HostRuntime) {
    let alloc = rt.alloc();
    let all = refusal_of(alloc, &SECTION).is_none()
        && body_len(&SECTION, here()) == Ok(32)
        && is_refused(alloc, &with_byte(16, 2), Rule::I5, 0)
        && is_refused(alloc, &with_byte(27, 2), Rule::I3, 0)
        && is_refused(alloc, &with_byte(22, 1), Rule::I3, 0)
        && is_refused(alloc, &with_byte(20, 3), Rule::I5, 0);
    assert!(rt; all);
}

fn has_int(is: &[Instr], k: usize, z: i64) -> bool {
    k < is.len() && is[k].op != 0 && matches!(&is[k].operand, Operand::Int(y) if *y == z)
}

fn has_index(is: &[Instr], k: usize, op: u16, n: u32) -> bool {
    k < is.len() && is[k].op == op && matches!(&is[k].operand, Operand::Index(m) if *m == n)
}

fn has_target(is: &[Instr], k: usize, n: u32) -> bool {
    k < is.len() && is[k].op == 0x38 && matches!(&is[k].operand, Operand::Target(m) if *m == n)
}

fn has_prefixes(is: &[Instr], k: usize) -> bool {
    k < is.len()
        && is[k].op == 0x6F
        && is[k].prefixes == 7
        && is[k].constrained == Some(Token { table: 2, row: 1 })
}

fn operands_are_read(is: &[Instr]) -> bool {
    is.len() == 13
        && has_int(is, 0, -5)
        && has_int(is, 1, 65536)
        && has_int(is, 2, -2)
        && has_index(is, 3, 0xFE09, 7)
        && has_index(is, 4, 0xFE0C, 256)
        && has_index(is, 5, 0xFE09, 1)
        && has_int(is, 6, -1)
        && has_target(is, 7, 9)
        && has_target(is, 8, 0)
        && has_prefixes(is, 10)
}

fn regions_are_read(regions: &[Region]) -> bool {
    let [first, second] = regions else {
        return false;
    };
    matches!(&first.kind, RegionKind::Catch(Token { table: 1, row: 4 }))
        && matches!(&second.kind, RegionKind::Fault)
        && second.try_from == 3
        && second.try_to == 4
        && second.handler_from == 11
        && second.handler_to == 13
}

fn header_is_read(body: &Body) -> bool {
    let offsets = [
        0, 2, 7, 0x10, 0x12, 0x16, 0x17, 0x18, 0x1A, 0x1F, 0x2C, 0x3D, 0x42,
    ];
    body.init
        && body.max_stack == 2
        && body.locals
            == Some(Token {
                table: 0x11,
                row: 1,
            })
        && body.offsets.as_slice() == offsets.as_slice()
}

fn is_read(alloc: Global, bytes: &[u8]) -> bool {
    if bytes.len() > 1000 {
        return false;
    }
    match decode_body(alloc, bytes, here()) {
        Ok(body) => {
            header_is_read(&body)
                && operands_are_read(body.instrs.as_slice())
                && regions_are_read(body.regions.as_slice())
        }
        Err(_) => false,
    }
}

#[test]
fn each_operand_is_read(rt: HostRuntime) {
    // Constants, indexes, branches there and back, a switch, and a call with all prefixes; then a
    // small section with a catch and a fat one with a fault.
    let bytes = [
        0x1B, 0x30, 2, 0, 0x43, 0, 0, 0, 1, 0, 0, 0x11, 0x1F, 0xFB, 0x20, 0, 0, 1, 0, 0x21, 0xFE,
        0xFF, 0xFF, 0xFF, 0xFF, 0xFF, 0xFF, 0xFF, 0x0E, 7, 0xFE, 0x0C, 0, 1, 0x03, 0x15, 0x2B, 5,
        0x38, 0xE1, 0xFF, 0xFF, 0xFF, 0x45, 2, 0, 0, 0, 0, 0, 0, 0, 0xD4, 0xFF, 0xFF, 0xFF, 0xFE,
        0x13, 0xFE, 0x14, 0xFE, 0x1E, 0xFE, 0x16, 1, 0, 0, 2, 0x6F, 5, 0, 0, 0x0A, 0x72, 1, 0, 0,
        0x70, 0x2A, 0, 0x81, 16, 0, 0, 0, 0, 0, 0, 2, 2, 0, 5, 4, 0, 0, 1, 0x41, 28, 0, 0, 4, 0, 0,
        0, 0x10, 0, 0, 0, 2, 0, 0, 0, 0x3D, 0, 0, 0, 6, 0, 0, 0, 0, 0, 0, 0, 0x99,
    ];
    let all = body_len(&bytes, here()) == Ok(124) && is_read(rt.alloc(), &bytes);
    assert!(rt; all);
}
