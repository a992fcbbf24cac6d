// The locals that instructions name (ECMA-335, III.3.43, III.3.44 and III.3.63).

ghost use Rattle.std.specs.Prelude.{◌≡◌};
ghost use Rattle.contract_parts.specs.Parts.{is_it, index_of, index_if, loaded, stored, written, named, read};

use cil_model::{Instr, Operand};

pub(crate) fn index_of(operand: &Operand) -> Option<u32>
    ensures { result ≡ index_of operand.now }
{
    match operand {
        Operand::Index(k) => Some(*k),
        _ => None,
    }
}

fn index_if(wanted: bool, operand: &Operand) -> Option<u32>
    ensures { result ≡ index_if wanted operand.now }
{
    if wanted { index_of(operand) } else { None }
}

/// The local that an instruction loads.
pub fn loaded(instr: &Instr) -> Option<u32>
    ensures { result ≡ loaded instr.now }
{
    index_if(instr.op == 0xFE0C, &instr.operand)
}

/// The local that an instruction stores.
pub fn stored(instr: &Instr) -> Option<u32>
    ensures { result ≡ stored instr.now }
{
    index_if(instr.op == 0xFE0E, &instr.operand)
}

/// The local whose value or address an instruction takes.
pub fn read(instr: &Instr) -> Option<u32>
    ensures { result ≡ read instr.now }
{
    index_if(instr.op == 0xFE0C || instr.op == 0xFE0D, &instr.operand)
}

/// The local that an instruction names.
pub fn named(instr: &Instr) -> Option<u32>
    ensures { result ≡ named instr.now }
{
    index_if(
        instr.op == 0xFE0C || instr.op == 0xFE0E || instr.op == 0xFE0D,
        &instr.operand,
    )
}

/// The local that an instruction stores, or whose address it takes.
pub fn written(instr: &Instr) -> Option<u32>
    ensures { result ≡ written instr.now }
{
    index_if(instr.op == 0xFE0E || instr.op == 0xFE0D, &instr.operand)
}

pub fn is_it(k: u32, other: Option<u32>) -> bool
    ensures { result ≡ is_it k other }
{
    match other {
        Some(j) => j == k,
        None => false,
    }
}
