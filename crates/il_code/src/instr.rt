// One instruction with its prefixes.
ghost use Rattle.std.specs.Prelude.{◌≡◌, ◌+◌, ◌<◌, ◌≤◌, ◌^◌, length, drop, Option, IfOk, IfSome};
ghost use Rattle.cil_model.specs.BodyCode.{code_at, instr_at, opcode_at, operand_at, with_operand};
ghost use Rattle.il_code.specs.Answers.{Gives};
ghost use Rattle.il_code.specs.declared.instr.ReadFault.TheVariants.{Memory};

use crate::operand::read_operand;
use cil_base::{Rule, Token, bytes_from, read_u32_at};
use cil_model::Instr;
use il_opcodes::{Opcode, OperandKind, find_opcode};
use std::alloc::{AllocError, Global};

/// Why there is no instruction.
#[derive(Drop)]
pub(crate) enum ReadFault {
    Broken(Rule),
    Memory(AllocError),
}

impl From<AllocError> for ReadFault {
    ghost from_gives = { λ e f. f ≡ Memory e };

    fn from(e: AllocError) -> Self {
        ReadFault::Memory(e)
    }
}

/// The code at the front, and how many bytes it takes; None where it is cut.
pub(crate) fn read_code_of(bytes: &[u8]) -> Option<(u16, usize)>
    ensures value { result ≡ code_at bytes.now }
    ensures within { IfSome result (λ x. (0 < x.1) × (x.1 ≤ length bytes.now)) }
{
    match bytes {
        [] => None,
        [0xFE] => None,
        [0xFE, b, ..] => Some((0xFE00 + *b as u16, 2)),
        [b, ..] => Some((*b as u16, 1)),
    }
}

/// The instruction whose code is at the front, and how many bytes the code takes.
fn read_opcode(bytes: &[u8]) -> Result<(Opcode, usize), Rule>
    ensures value { result ≡ opcode_at bytes.now }
    ensures within { IfOk result (λ x. (0 < x.1) × (x.1 ≤ length bytes.now)) }
{
    let Some((code, n)) = read_code_of(bytes) else {
        return Err(Rule::I2);
    };
    match find_opcode(code) {
        None => Err(Rule::I1),
        Some(opcode) => Ok((opcode, n)),
    }
}

/// The prefixes that were read, and how many bytes are behind.
#[derive(Clone, Copy)]
struct Prefixes {
    constrained: Option<Token>,
    flags: u8,
    taken: usize,
}

/// The instruction of a code, with its operand at the front of the rest.
fn finish(
    alloc: Global,
    assembly: u32,
    at: u64,
    opcode: Opcode,
    prefixes: Prefixes,
    rest: &[u8],
) -> Result<(Instr, usize), ReadFault>
    requires { at + prefixes.taken + length rest.now < 2 ^ 32 }
    ensures value { Gives result (with_operand prefixes.constrained prefixes.flags prefixes.taken opcode.long (operand_at assembly (at + prefixes.taken) opcode.operand rest.now)) }
    ensures within { IfOk result (λ x. (prefixes.taken ≤ x.1) × (x.1 ≤ prefixes.taken + length rest.now)) }
{
    let start = at + prefixes.taken as u64;
    let Some((operand, n)) = read_operand(alloc, assembly, start, opcode.operand, rest)? else {
        return Err(ReadFault::Broken(Rule::I2));
    };
    let i = Instr {
        op: opcode.long,
        operand,
        constrained: prefixes.constrained,
        prefixes: prefixes.flags,
        under: None,
    };
    Ok((i, prefixes.taken + n))
}

/// The first instruction of the bytes with its prefixes, and how many bytes it takes. The bytes
/// begin at an offset in the code; a target is given as an offset.
pub(crate) fn read_instr(
    alloc: Global,
    assembly: u32,
    at: u64,
    bytes: &[u8],
) -> Result<(Instr, usize), ReadFault>
    requires { at + length bytes.now < 2 ^ 32 }
    ensures value { Gives result (instr_at assembly at bytes.now) }
    ensures within { IfOk result (λ x. (0 < x.1) × (x.1 ≤ length bytes.now)) }
{
    let mut constrained = None;
    let mut flags = 0u8;
    let mut taken = 0usize;
    'codes: loop {
        let (opcode, n) = match read_opcode(bytes_from(bytes, taken)) {
            Err(rule) => return Err(ReadFault::Broken(rule)),
            Ok(read) => read,
        };
        taken += n;
        let rest = bytes_from(bytes, taken);
        match opcode.operand {
            OperandKind::Flag(bit) => flags |= bit,
            OperandKind::Constrained => {
                let Some(v) = read_u32_at(rest, 0) else {
                    return Err(ReadFault::Broken(Rule::I2));
                };
                constrained = Some(Token::from_u32(v));
                taken += 4;
            }
            _ => {
                let prefixes = Prefixes {
                    constrained,
                    flags,
                    taken,
                };
                return finish(alloc, assembly, at, opcode, prefixes, rest);
            }
        }
    }
}
