// The instructions of a body's code.
ghost use Rattle.std.specs.Prelude.{◌≡◌, ◌<◌, ◌≤◌, ◌+◌, ◌^◌, ℕ, length, [], ◌∷◌, ◌++◌, IfOk, IfSome, OnOk};
ghost use Rattle.cil_base.specs.Refusals.{OnRefused};
ghost use Rattle.cil_model.specs.BodyCode.{Reads, code_at};
ghost use Rattle.cil_model.specs.BodyOf.{FaultIn};
ghost use Rattle.cil_model.specs.SmallBody.{is_small_code, small_at};
ghost use Rattle.cil_model.specs.SmallMeaning.{is_requires};
ghost use Rattle.il_code.specs.Answers.{Gives, Rise, reader_of};

use crate::instr::{ReadFault, read_code_of, read_instr};
use cil_base::{Fault, Place, Rule, U32s, bytes_from};
use cil_model::{Instr, Operand};
use il_opcodes::code;
use std::alloc::{AllocError, Global};

/// Which instructions a body may have.
#[derive(Clone, Copy)]
pub(crate) enum Form {
    Any,
    /// Those of the command `body`.
    Small,
}

/// nop, ldarg.0 to ldarg.3, all spellings of ldc.i4, dup, pop, call, ret, add, sub, mul, ceq, cgt
/// and clt.
static SMALL_CODES: [u16; 27] = [
    code::NOP,
    code::LDARG_0,
    code::LDARG_1,
    code::LDARG_2,
    code::LDARG_3,
    code::LDC_I4_M1,
    code::LDC_I4_0,
    code::LDC_I4_1,
    code::LDC_I4_2,
    code::LDC_I4_3,
    code::LDC_I4_4,
    code::LDC_I4_5,
    code::LDC_I4_6,
    code::LDC_I4_7,
    code::LDC_I4_8,
    code::LDC_I4_S,
    code::LDC_I4,
    code::DUP,
    code::POP,
    code::CALL,
    code::RET,
    code::ADD,
    code::SUB,
    code::MUL,
    code::CEQ,
    code::CGT,
    code::CLT,
];

#[tactic(auto, unfolding(cil_model::specs::SmallBody::is_small_code))]
fn is_small(code: u16) -> bool
    ensures { result ≡ is_small_code code }
{
    SMALL_CODES.iter().any(|c| *c == code)
}

/// Whether it calls Requires.
pub fn calls_requires(i: &Instr) -> bool
    ensures { result ≡ is_requires i.now }
{
    if i.op != code::CALL {
        return false;
    }
    match &i.operand {
        Operand::Tok { token, .. } => token.table == 10 && token.row == 1,
        _ => false,
    }
}

/// The first instruction of the bytes, if it is one of the command `body`.
fn read_small(
    alloc: Global,
    assembly: u32,
    at: u64,
    bytes: &[u8],
) -> Result<(Instr, usize), ReadFault>
    requires { at + length bytes.now < 2 ^ 32 }
    ensures value { Gives result (small_at assembly at bytes.now) }
    ensures within { IfOk result (λ x. (0 < x.1) × (x.1 ≤ length bytes.now)) }
{
    let Some((first, _)) = read_code_of(bytes) else {
        return Err(ReadFault::Broken(Rule::I2));
    };
    if !is_small(first) {
        return Err(ReadFault::Broken(Rule::I1));
    }
    let (i, n) = read_instr(alloc, assembly, at, bytes)?;
    if i.op == code::CALL && !calls_requires(&i) {
        return Err(ReadFault::Broken(Rule::I1));
    }
    Ok((i, n))
}

fn read_first(
    alloc: Global,
    form: Form,
    assembly: u32,
    at: u64,
    bytes: &[u8],
) -> Result<(Instr, usize), ReadFault>
    requires { at + length bytes.now < 2 ^ 32 }
    ensures value { Gives result (reader_of form assembly at bytes.now) }
    ensures within { IfOk result (λ x. (0 < x.1) × (x.1 ≤ length bytes.now)) }
{
    match form {
        Form::Any => read_instr(alloc, assembly, at, bytes),
        Form::Small => read_small(alloc, assembly, at, bytes),
    }
}

fn push(instrs: &mut Vec<Instr>, i: Instr) -> Result<(), AllocError>
    ensures { OnOk result (instrs.new.items ≡ instrs.old.items ++ i ∷ []) }
{
    instrs.push(i)?;
    Ok(())
}

/// The instructions of the code, with offsets as targets, and where they begin.
pub(crate) fn read_code(
    alloc: Global,
    form: Form,
    code: &[u8],
    place: Place,
) -> Result<(Vec<Instr>, U32s), Fault>
    requires { length code.now < 2 ^ 32 }
    ensures read { IfOk result (λ x. Reads (reader_of form place.assembly) 0 code.now x.0.items x.1 (length code.now) []) }
    ensures rise { IfOk result (λ x. Rise x.1) }
    ensures few { IfOk result (λ x. length x.1 < 2 ^ 32) }
    ensures each { IfOk result (λ x. length x.0.items ≡ length x.1) }
    ensures broken { OnRefused result (FaultIn (reader_of form place.assembly) place code.now) }
{
    let mut instrs = Vec::new(alloc);
    let mut offsets = U32s::new(alloc);
    let mut at = 0usize;
    while at < code.len() {
        match read_first(alloc, form, place.assembly, at as u64, bytes_from(code, at)) {
            Err(ReadFault::Broken(rule)) => {
                return Err(Fault::Refused(place.refusal(rule, at as u32)));
            }
            Err(ReadFault::Memory(e)) => return Err(Fault::Memory(e)),
            Ok((i, n)) => {
                offsets.push(at as u32)?;
                push(&mut instrs, i)?;
                at += n;
            }
        }
    }
    Ok((instrs, offsets))
}
