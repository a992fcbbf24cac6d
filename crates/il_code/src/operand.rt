// What stands behind an instruction's code.
ghost use Rattle.std.specs.Prelude.{◌≡◌, ◌+◌, ◌-◌, ◌*◌, ◌<◌, ◌≤◌, ◌^◌, ℕ, length, drop, slice_get, Option, Some, None, IfOk, IfSome};
ghost use Rattle.cil_base.specs.Numbers.{num, num_at};
ghost use Rattle.cil_base.specs.Tokens.{token_of};
ghost use Rattle.cil_model.specs.BodyCode.{cases, landing, operand_at, switch_of, token_at, sign_extend, with_number};
ghost use Rattle.cil_model.specs.declared.body.Operand.TheVariants.{Int, Index, Target};
ghost use Rattle.std.specs.Int.{w8, w32, w64, cast_signed};

use crate::numbers::{eight_in, four_in};
use cil_base::{Token, U32s, read_u16_at, read_u32_at};
use cil_model::Operand;
use il_opcodes::OperandKind;
use std::alloc::{AllocError, Global};

/// The offset so far behind the end of an instruction.
fn land(end: u64, v: u32) -> u32
    requires { end < 2 ^ 48 }
    ensures { result ≡ landing end v }
{
    ((end + v as u64) % 0x1_0000_0000) as u32
}

fn widen(b: u8) -> u32
    ensures { result ≡ sign_extend b }
{
    if b < 0x80 {
        b as u32
    } else {
        b as u32 + 0xFFFF_FF00
    }
}

/// The targets of a switch that ends at an offset.
fn targets_of(alloc: Global, end: u64, bytes: &[u8], count: usize) -> Result<U32s, AllocError>
    requires end { end < 2 ^ 48 }
    requires whole { 4 * count ≤ length bytes.now }
    ensures { IfOk result (λ targets. targets ≡ cases end bytes.now count) }
{
    let mut targets = U32s::new(alloc);
    for k in 0..count {
        targets.push(land(end, four_in(bytes, 4 * k)))?;
    }
    Ok(targets)
}

fn switch_at(alloc: Global, at: u64, bytes: &[u8]) -> Result<Option<(Operand, usize)>, AllocError>
    requires { at < 2 ^ 32 }
    ensures value { IfOk result (λ read. read ≡ switch_of at bytes.now (num_at bytes.now 0 4)) }
    ensures within { IfOk result (λ read. IfSome read (λ x. x.1 ≤ length bytes.now)) }
{
    let Some(count) = read_u32_at(bytes, 0) else {
        return Ok(None);
    };
    let size = 4 + 4 * count as usize;
    if bytes.len() < size {
        return Ok(None);
    }
    let targets = targets_of(alloc, at + size as u64, &bytes[4..], count as usize)?;
    Ok(Some((Operand::Targets(targets), size)))
}

fn byte_of(bytes: &[u8]) -> Option<u8>
    ensures { result ≡ slice_get bytes.now 0 }
{
    bytes.first().copied()
}

fn int8_at(bytes: &[u8]) -> Option<(Operand, usize)>
    ensures value { result ≡ with_number (λ v. Int (cast_signed w8 v)) 1 (slice_get bytes.now 0) }
    ensures within { IfSome result (λ x. x.1 ≤ length bytes.now) }
{
    let b = byte_of(bytes)?;
    Some((Operand::Int(b.cast_signed() as i64), 1))
}

fn int32_at(bytes: &[u8]) -> Option<(Operand, usize)>
    ensures value { result ≡ with_number (λ v. Int (cast_signed w32 v)) 4 (num_at bytes.now 0 4) }
    ensures within { IfSome result (λ x. x.1 ≤ length bytes.now) }
{
    let v = read_u32_at(bytes, 0)?;
    Some((Operand::Int(v.cast_signed() as i64), 4))
}

fn int64_at(bytes: &[u8]) -> Option<(Operand, usize)>
    ensures value { result ≡ with_number (λ v. Int (cast_signed w64 v)) 8 (num_at bytes.now 0 8) }
    ensures within { IfSome result (λ x. x.1 ≤ length bytes.now) }
{
    if bytes.len() < 8 {
        return None;
    }
    Some((Operand::Int(eight_in(bytes).cast_signed()), 8))
}

fn index8_at(bytes: &[u8]) -> Option<(Operand, usize)>
    ensures value { result ≡ with_number Index 1 (slice_get bytes.now 0) }
    ensures within { IfSome result (λ x. x.1 ≤ length bytes.now) }
{
    let b = byte_of(bytes)?;
    Some((Operand::Index(b as u32), 1))
}

fn index16_at(bytes: &[u8]) -> Option<(Operand, usize)>
    ensures value { result ≡ with_number Index 2 (num_at bytes.now 0 2) }
    ensures within { IfSome result (λ x. x.1 ≤ length bytes.now) }
{
    let v = read_u16_at(bytes, 0)?;
    Some((Operand::Index(v as u32), 2))
}

fn target8_at(at: u64, bytes: &[u8]) -> Option<(Operand, usize)>
    requires { at < 2 ^ 32 }
    ensures value { result ≡ with_number (λ v. Target (landing (at + 1) (sign_extend v))) 1 (slice_get bytes.now 0) }
    ensures within { IfSome result (λ x. x.1 ≤ length bytes.now) }
{
    let b = byte_of(bytes)?;
    Some((Operand::Target(land(at + 1, widen(b))), 1))
}

fn target32_at(at: u64, bytes: &[u8]) -> Option<(Operand, usize)>
    requires { at < 2 ^ 32 }
    ensures value { result ≡ with_number (λ v. Target (landing (at + 4) v)) 4 (num_at bytes.now 0 4) }
    ensures within { IfSome result (λ x. x.1 ≤ length bytes.now) }
{
    let v = read_u32_at(bytes, 0)?;
    Some((Operand::Target(land(at + 4, v)), 4))
}

fn tok_at(assembly: u32, bytes: &[u8]) -> Option<(Operand, usize)>
    ensures value { result ≡ token_at assembly bytes.now }
    ensures within { IfSome result (λ x. x.1 ≤ length bytes.now) }
{
    let v = read_u32_at(bytes, 0)?;
    let token = Token::from_u32(v);
    Some((Operand::Tok { assembly, token }, 4))
}

/// The operand that begins at an offset, and how many bytes it takes; None where it is cut.
pub(crate) fn read_operand(
    alloc: Global,
    assembly: u32,
    at: u64,
    kind: OperandKind,
    bytes: &[u8],
) -> Result<Option<(Operand, usize)>, AllocError>
    requires { at < 2 ^ 32 }
    ensures value { IfOk result (λ read. read ≡ operand_at assembly at kind bytes.now) }
    ensures within { IfOk result (λ read. IfSome read (λ x. x.1 ≤ length bytes.now)) }
{
    match kind {
        OperandKind::Nothing => Ok(Some((Operand::Nothing, 0))),
        OperandKind::Int8 => Ok(int8_at(bytes)),
        OperandKind::Int32 => Ok(int32_at(bytes)),
        OperandKind::Int64 => Ok(int64_at(bytes)),
        OperandKind::Index8 => Ok(index8_at(bytes)),
        OperandKind::Index16 => Ok(index16_at(bytes)),
        OperandKind::Target8 => Ok(target8_at(at, bytes)),
        OperandKind::Target32 => Ok(target32_at(at, bytes)),
        OperandKind::Targets => switch_at(alloc, at, bytes),
        OperandKind::TypeToken
        | OperandKind::FieldToken
        | OperandKind::MethodToken
        | OperandKind::StringToken
        | OperandKind::AnyToken => Ok(tok_at(assembly, bytes)),
        OperandKind::ThatIndex(k) => Ok(Some((Operand::Index(k), 0))),
        OperandKind::ThatInt(z) => Ok(Some((Operand::Int(z), 0))),
        OperandKind::Flag(_) | OperandKind::Constrained => Ok(None),
    }
}
