// The bytes of a body.
#![tactic(auto, unfolding(cil_base::specs::Bytes::number_bytes))]

ghost use Rattle.std.specs.Prelude.{◌≡◌, ◌==◌, ◌%◌, get_or, ℕ, List, ◌+◌, ◌*◌, ◌<◌, ◌≤◌, ◌^◌, ◌++◌, ◌∷◌, [], length, take, map, nat_le, OnOk, OnErr, IfOk, IfSome, if◌then◌else◌};
ghost use Rattle.cil_base.specs.Refusals.{OnRefused, OnMemory};
ghost use Rattle.cil_model.specs.BodyOf.{StandsFor};
ghost use Rattle.cil_model.specs.BodyLayout.{locals_number};
ghost use Rattle.cil_model.specs.ValidBody.{AllValid, IsSmallToken, IsValid};
ghost use Rattle.il_body.specs.BodyEncoding.{as_encoded, body_bytes, cases_in, clause_of, code_bytes_of, code_from, weight, fat_header, fits_tiny, header_bytes, instr_limit, is_empty, starts, too_many};

use crate::clauses::push_sections;
use crate::instr::push_instr;
use crate::spelling::size_of;
use cil_base::limits::INSTRUCTION_LIMIT;
use cil_base::{Bytes, Fault, Refusal, Rule, Token, U32s, push_u16, push_u32};
use cil_model::{Body, Instr, Operand, Regions};
use std::alloc::{AllocError, Global};

/// How many instructions an instruction counts as.
fn weight_of(i: &Instr) -> usize
    ensures { result ≡ 1 + cases_in i.now.operand }
{
    match &i.operand {
        Operand::Targets(ks) => 1 + ks.as_slice().len(),
        _ => 1,
    }
}

fn is_within_limit(instrs: &[Instr]) -> bool
    ensures { result ≡ nat_le (weight instrs.now) instr_limit }
{
    let mut left = INSTRUCTION_LIMIT as usize;
    for i in instrs {
        let weight = weight_of(i);
        if left < weight {
            return false;
        }
        left -= weight;
    }
    true
}

/// The refusal of a body with more. It names no method.
fn size_refusal() -> Refusal
    ensures { result ≡ too_many }
{
    Refusal::limit(Rule::L4, INSTRUCTION_LIMIT)
}

/// Where the instructions begin, and where the last one ends.
fn offsets_of(alloc: Global, instrs: &[Instr]) -> Result<U32s, AllocError>
    requires { weight instrs.now ≤ 2 ^ 22 }
    ensures { IfOk result (λ offsets. offsets ≡ starts 0 instrs.now) }
{
    let mut offsets = U32s::new(alloc);
    let mut at = 0u32;
    for i in instrs {
        offsets.push(at)?;
        at += size_of(i) as u32;
    }
    offsets.push(at)?;
    Ok(offsets)
}

/// The code of the instructions, which begin at these offsets.
fn code_of(alloc: Global, instrs: &[Instr], offsets: &[u32]) -> Result<Vec<u8>, AllocError>
    requires few { weight instrs.now ≤ 2 ^ 22 }
    requires valid { (a : ℕ) × (count : ℕ) × (count ≤ length offsets.now) × AllValid a count instrs.now }
    ensures { IfOk result (λ code. code.items ≡ code_from offsets.now 0 instrs.now) }
{
    let mut code = Vec::new(alloc);
    for i in instrs {
        let at = code.len() as u32;
        push_instr(&mut code, offsets, at, i)?;
    }
    Ok(code)
}

/// Whether a tiny header says all of the body.
fn is_tiny(body: &Body, size: usize) -> bool
    ensures value { result ≡ fits_tiny body.now size }
    ensures stack { body.now.max_stack < 2 ^ 16 }
{
    body.max_stack == 8
        && size < 64
        && !body.init
        && body.locals.is_none()
        && body.regions.is_empty()
}

fn flags_of(init: bool, regions: &Regions) -> u16
    ensures { result ≡ 0x3003 + (if init then 0x10 else 0) + (if is_empty regions.now then 0 else 8) }
{
    let locals = if init { 0x10 } else { 0 };
    let sections = if regions.is_empty() { 0 } else { 8 };
    0x3003 + locals + sections
}

/// The number of a token of locals, or 0 where there is none.
fn number_of_locals(locals: &Option<Token>) -> u32
    requires { IfSome locals.now (λ token. token.row < 2 ^ 24) }
    ensures { result ≡ locals_number locals.now }
{
    match locals {
        None => 0,
        Some(token) => token.to_u32(),
    }
}

/// The twelve bytes in front of a body that a tiny header doesn't fit.
fn push_fat_header(out: &mut Vec<u8>, body: &Body, size: u32) -> Result<(), AllocError>
    requires { IfSome body.now.locals IsSmallToken }
    ensures { OnOk result (out.new.items ≡ out.old.items ++ fat_header body.now size) }
{
    push_u16(out, flags_of(body.init, &body.regions))?;
    push_u16(out, body.max_stack)?;
    push_u32(out, size)?;
    push_u32(out, number_of_locals(&body.locals))
}

fn header_of(alloc: Global, body: &Body, size: usize) -> Result<Vec<u8>, AllocError>
    requires small { size < 2 ^ 32 }
    requires locals { IfSome body.now.locals IsSmallToken }
    ensures value { IfOk result (λ bytes. bytes.items ≡ header_bytes body.now size) }
    ensures stack { body.now.max_stack < 2 ^ 16 }
{
    let mut bytes = Vec::new(alloc);
    if is_tiny(body, size) {
        bytes.push((4 * size + 2) as u8)?;
    } else {
        push_fat_header(&mut bytes, body, size as u32)?;
    }
    Ok(bytes)
}

/// The bytes of a body (ECMA-335, II.25.4): each instruction in its shortest spelling, but branches
/// and `leave` in the long one; a tiny header where it says all of the body; regions as fat clauses,
/// in as many sections as their sizes of three bytes ask for. `decode_body` reads the body back,
/// but for the offsets of its instructions. L4, with no place, where the body has over 2^22
/// instructions, each case of a switch counted as one more.
pub fn encode_body(alloc: Global, body: &Body) -> Result<Bytes, Fault>
    requires { (a : ℕ) × IsValid a body.now }
    ensures body { (a : ℕ) → IsValid a body.now → IfOk result (λ bytes. StandsFor a bytes (as_encoded body.now) (length bytes)) }
    ensures bytes { IfOk result (λ bytes. bytes ≡ body_bytes body.now) }
    ensures tiny { IfOk result (λ bytes. (get_or bytes 0 0 % 4 == 2) ≡ fits_tiny body.now (length (code_bytes_of body.now.instrs))) }
    ensures accepted { OnOk result (weight body.now.instrs ≤ instr_limit) }
    ensures refused { OnRefused result (λ r. (instr_limit < weight body.now.instrs) × (r ≡ too_many)) }
    // L4 is tested before memory is taken.
    ensures memory { OnMemory result (weight body.now.instrs ≤ instr_limit) }
{
    let instrs = body.instrs.as_slice();
    if !is_within_limit(instrs) {
        return Err(Fault::Refused(size_refusal()));
    }
    let offsets = offsets_of(alloc, instrs)?;
    let starts = offsets.as_slice();
    let code = code_of(alloc, instrs, starts)?;
    let mut bytes = header_of(alloc, body, code.len())?;
    bytes.extend_from_slice(code.as_slice())?;
    push_sections(&mut bytes, starts, body.regions.as_slice())?;
    Ok(Bytes::from_vec(bytes))
}

/// Byte after byte, so that want of memory leaves the first ones.
fn push_bytes(out: &mut Vec<u8>, bytes: &[u8]) -> Result<(), AllocError>
    ensures ok { OnOk result (out.new.items ≡ out.old.items ++ bytes.now) }
    ensures err { OnErr result ((k : ℕ) × (out.new.items ≡ out.old.items ++ take k bytes.now)) }
{
    for b in bytes {
        out.push(*b)?;
    }
    Ok(())
}

/// Appends the bytes that `encode_body` gives. L4 leaves `out` as it was; after want of memory it
/// has the first of them more, or none.
pub fn encode_into(alloc: Global, body: &Body, out: &mut Vec<u8>) -> Result<(), Fault>
    requires { (a : ℕ) × IsValid a body.now }
    ensures body { (a : ℕ) → IsValid a body.now → OnOk result ((bytes : List ℕ) × (out.new.items ≡ out.old.items ++ bytes) × StandsFor a bytes (as_encoded body.now) (length bytes)) }
    ensures appended { OnOk result (out.new.items ≡ out.old.items ++ body_bytes body.now) }
    ensures accepted { OnOk result (weight body.now.instrs ≤ instr_limit) }
    ensures refused { OnRefused result (λ r. (instr_limit < weight body.now.instrs) × (r ≡ too_many) × (out.new.items ≡ out.old.items)) }
    ensures memory { OnMemory result (weight body.now.instrs ≤ instr_limit) }
    ensures partly { OnErr result ((k : ℕ) × (out.new.items ≡ out.old.items ++ take k (body_bytes body.now))) }
{
    let bytes = match encode_body(alloc, body) {
        Err(fault) => return Err(fault),
        Ok(bytes) => bytes,
    };
    match push_bytes(out, bytes.as_slice()) {
        Err(e) => Err(Fault::Memory(e)),
        Ok(()) => Ok(()),
    }
}
