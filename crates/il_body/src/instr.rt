// The bytes of one instruction.
#![tactic(auto, unfolding(cil_base::specs::Bytes::number_bytes))]

ghost use Rattle.std.specs.Prelude.{◌≡◌, ◌<◌, ◌≤◌, ◌+◌, ◌*◌, ◌^◌, ◌++◌, ◌∷◌, ℕ, length, get_or, [], OnOk, IfSome, IsTrue};
ghost use Rattle.std.specs.Int.{w32, to_le_bytes};
ghost use Rattle.cil_base.specs.Tokens.{token_number};
ghost use Rattle.il_body.specs.BodyEncoding.{displacement};
ghost use Rattle.cil_model.specs.ValidBody.{AllBelow, IsSmallToken, IsValidInstr, IsValidOperand, takes, takes_int, takes_index};
ghost use Rattle.il_body.specs.BodyEncoding.{code_bytes, flag_bytes, constrained_bytes, prefix_bytes, front_bytes, operand_bytes, case_bytes, int_bytes, index_bytes, instr_bytes, cases_in};

use crate::spelling::{front_size, has_flag, spelling};
use cil_base::{Token, push_u16, push_u32, push_u64};
use cil_model::{Instr, Operand};
use il_opcodes::{Opcode, OperandKind};
use std::alloc::AllocError;

fn push_byte(out: &mut Vec<u8>, b: u8) -> Result<(), AllocError>
    ensures { OnOk result (out.new.items ≡ out.old.items ++ b ∷ []) }
{
    out.push(b)?;
    Ok(())
}

fn push_code(out: &mut Vec<u8>, code: u16) -> Result<(), AllocError>
    ensures { OnOk result (out.new.items ≡ out.old.items ++ code_bytes code) }
{
    if code < 0x100 {
        out.push(code as u8)?;
        return Ok(());
    }
    out.push(0xFE)?;
    out.push((code % 0x100) as u8)?;
    Ok(())
}

fn push_flag(out: &mut Vec<u8>, value: u8, second: u8, flags: u8) -> Result<(), AllocError>
    requires { 0 < value }
    ensures { OnOk result (out.new.items ≡ out.old.items ++ flag_bytes value second flags) }
{
    if has_flag(value, flags) {
        out.push(0xFE)?;
        out.push(second)?;
    }
    Ok(())
}

fn push_type(out: &mut Vec<u8>, constrained: &Option<Token>) -> Result<(), AllocError>
    requires { IfSome constrained.now IsSmallToken }
    ensures { OnOk result (out.new.items ≡ out.old.items ++ constrained_bytes constrained.now) }
{
    if let Some(token) = constrained {
        out.push(0xFE)?;
        out.push(0x16)?;
        push_u32(out, token.to_u32())?;
    }
    Ok(())
}

/// The prefixes and the code.
fn push_front(out: &mut Vec<u8>, i: &Instr, o: Opcode) -> Result<(), AllocError>
    requires { IfSome i.now.constrained IsSmallToken }
    ensures { OnOk result (out.new.items ≡ out.old.items ++ front_bytes i.now o) }
{
    push_type(out, &i.constrained)?;
    push_flag(out, 1, 0x13, i.prefixes)?;
    push_flag(out, 2, 0x14, i.prefixes)?;
    push_flag(out, 4, 0x1E, i.prefixes)?;
    push_code(out, o.code)
}

fn push_int(out: &mut Vec<u8>, kind: OperandKind, z: i64) -> Result<(), AllocError>
    requires { IsTrue (takes_int kind z) }
    ensures { OnOk result (out.new.items ≡ out.old.items ++ int_bytes kind z) }
{
    match kind {
        OperandKind::Int8 => push_byte(out, (z as i8).cast_unsigned()),
        OperandKind::Int32 => push_u32(out, (z as i32).cast_unsigned()),
        OperandKind::Int64 => push_u64(out, z.cast_unsigned()),
        _ => Ok(()),
    }
}

fn push_index(out: &mut Vec<u8>, kind: OperandKind, k: u32) -> Result<(), AllocError>
    requires { IsTrue (takes_index kind k) }
    ensures { OnOk result (out.new.items ≡ out.old.items ++ index_bytes kind k) }
{
    match kind {
        OperandKind::Index8 => push_byte(out, k as u8),
        OperandKind::Index16 => push_u16(out, k as u16),
        _ => Ok(()),
    }
}

/// How far it is to an offset from the end of an instruction.
fn push_displacement(out: &mut Vec<u8>, target: u32, end: u32) -> Result<(), AllocError>
    ensures { OnOk result (out.new.items ≡ out.old.items ++ to_le_bytes w32 (displacement target end)) }
{
    push_u32(out, target.wrapping_sub(end))
}

fn push_cases(out: &mut Vec<u8>, offsets: &[u32], end: u32, ks: &[u32]) -> Result<(), AllocError>
    requires { (count : ℕ) × (count ≤ length offsets.now) × AllBelow count ks.now }
    ensures { OnOk result (out.new.items ≡ out.old.items ++ case_bytes offsets.now end ks.now) }
{
    for k in ks {
        push_displacement(out, offsets[*k as usize], end)?;
    }
    Ok(())
}

/// The operand of an instruction, which begins at an offset in the code.
fn push_operand(
    out: &mut Vec<u8>,
    offsets: &[u32],
    at: u32,
    kind: OperandKind,
    operand: &Operand,
) -> Result<(), AllocError>
    requires room { at + 4 + 4 * cases_in operand.now < 2 ^ 32 }
    requires says { IsTrue (takes kind operand.now) }
    requires valid { (a : ℕ) × (count : ℕ) × (count ≤ length offsets.now) × IsValidOperand a count operand.now }
    ensures { OnOk result (out.new.items ≡ out.old.items ++ operand_bytes offsets.now at kind operand.now) }
{
    match operand {
        Operand::Nothing => Ok(()),
        Operand::Int(z) => push_int(out, kind, *z),
        Operand::Index(k) => push_index(out, kind, *k),
        Operand::Target(k) => push_displacement(out, offsets[*k as usize], at + 4),
        Operand::Targets(ks) => {
            let count = ks.len() as u32;
            push_u32(out, count)?;
            push_cases(out, offsets, at + 4 + 4 * count, ks.as_slice())
        }
        Operand::Tok { token, .. } => push_u32(out, token.to_u32()),
    }
}

/// The instruction, which begins at an offset in the code. The instructions begin at these offsets.
#[tactic(auto, unfolding(crate::specs::BodyEncoding::instr_bytes))]
pub(crate) fn push_instr(
    out: &mut Vec<u8>,
    offsets: &[u32],
    at: u32,
    i: &Instr,
) -> Result<(), AllocError>
    requires room { at + 24 * (1 + cases_in i.now.operand) < 2 ^ 32 }
    requires valid { (a : ℕ) × (count : ℕ) × (count ≤ length offsets.now) × IsValidInstr a count i.now }
    ensures { OnOk result (out.new.items ≡ out.old.items ++ instr_bytes offsets.now at i.now) }
{
    match spelling(i.op, &i.operand) {
        None => Ok(()),
        Some(o) => {
            let operand_at = at + front_size(i, o) as u32;
            push_front(out, i, o)?;
            push_operand(out, offsets, operand_at, o.operand, &i.operand)
        }
    }
}
