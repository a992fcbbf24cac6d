// The table of instructions against that of another library.

use crate::classes::is_of_class;
use crate::instructions::{INSTRUCTIONS, Instruction, OperandType};
use il_opcodes::{Opcode, OperandKind, find_mnemonic, find_opcode, opcodes};
use std::alloc::{AllocError, Global};

/// The instructions that are left out: jmp, calli, refanyval, mkrefany, arglist, localloc, endfilter, unaligned.,
/// cpblk, initblk and refanytype.
const LEFT_OUT: [u16; 11] = [
    0x27, 0x29, 0xC2, 0xC6, 0xFE00, 0xFE0F, 0xFE11, 0xFE12, 0xFE17, 0xFE18, 0xFE1D,
];

const NEWOBJ: u16 = 0x73;

/// Whether the operand is read from as many bytes and of this kind. What the code itself says stands behind no code.
fn is_operand(wanted: OperandType, operand: OperandKind) -> bool {
    use OperandKind::{
        AnyToken, Constrained, FieldToken, Flag, Index8, Index16, Int8, Int32, Int64, MethodToken,
        Nothing, StringToken, Target8, Target32, Targets, ThatIndex, ThatInt, TypeToken,
    };
    match wanted {
        OperandType::InlineBrTarget => matches!(operand, Target32),
        OperandType::InlineField => matches!(operand, FieldToken),
        OperandType::InlineI | OperandType::ShortInlineR => matches!(operand, Int32),
        OperandType::InlineI8 | OperandType::InlineR => matches!(operand, Int64),
        OperandType::InlineMethod => matches!(operand, MethodToken),
        OperandType::InlineNone => {
            matches!(operand, Nothing | ThatIndex(_) | ThatInt(_) | Flag(_))
        }
        OperandType::InlineSig => false,
        OperandType::InlineString => matches!(operand, StringToken),
        OperandType::InlineSwitch => matches!(operand, Targets),
        OperandType::InlineTok => matches!(operand, AnyToken),
        OperandType::InlineType => matches!(operand, TypeToken | Constrained),
        OperandType::InlineVar => matches!(operand, Index16),
        OperandType::ShortInlineBrTarget => matches!(operand, Target8),
        OperandType::ShortInlineI => matches!(operand, Int8),
        OperandType::ShortInlineVar => matches!(operand, Index8),
    }
}

/// Whether the prefixes have their bits, and no other instruction has any.
fn has_its_flag(row: &Opcode) -> bool {
    let flag = match row.operand {
        OperandKind::Flag(flag) => flag,
        _ => 0,
    };
    let wanted = match row.code {
        0xFE13 => 1,
        0xFE14 => 2,
        0xFE1E => 4,
        _ => 0,
    };
    flag == wanted && matches!(row.operand, OperandKind::Constrained) == (row.code == 0xFE16)
}

/// What the mnemonic has behind that of the longest spelling.
fn suffix(operand: OperandKind) -> &'static str {
    match operand {
        OperandKind::Int8 | OperandKind::Index8 | OperandKind::Target8 => ".s",
        OperandKind::ThatInt(-1) => ".m1",
        OperandKind::ThatIndex(0) | OperandKind::ThatInt(0) => ".0",
        OperandKind::ThatIndex(1) | OperandKind::ThatInt(1) => ".1",
        OperandKind::ThatIndex(2) | OperandKind::ThatInt(2) => ".2",
        OperandKind::ThatIndex(3) | OperandKind::ThatInt(3) => ".3",
        OperandKind::ThatInt(4) => ".4",
        OperandKind::ThatInt(5) => ".5",
        OperandKind::ThatInt(6) => ".6",
        OperandKind::ThatInt(7) => ".7",
        OperandKind::ThatInt(8) => ".8",
        OperandKind::ThatIndex(_) | OperandKind::ThatInt(_) => "?",
        _ => "",
    }
}

/// Whether the mnemonic is that of the longest spelling, and of the class, and what it has behind them.
fn is_spelled(alloc: Global, row: &Opcode, mnemonic: &str) -> Result<bool, AllocError> {
    let Some(long) = find_mnemonic(row.long) else {
        return Ok(false);
    };
    let spelled = format!(in alloc; "{long}{}", suffix(row.operand))?;
    Ok(spelled.as_str() == mnemonic && is_of_class(alloc, row, long)?)
}

/// Whether a row of the table is the instruction that is wanted. What `newobj` takes hangs on its
/// constructor, and the table leaves its one result to it too.
fn is_instruction(alloc: Global, row: &Opcode, wanted: &Instruction) -> Result<bool, AllocError> {
    let (code, mnemonic, operand, pops, pushes) = *wanted;
    let pushes = if code == NEWOBJ { None } else { pushes };
    if row.code != code
        || !matches!(find_mnemonic(code), Some(text) if text == mnemonic)
        || !matches!(find_opcode(code), Some(found) if found.code == code)
    {
        return Ok(false);
    }
    Ok(
        is_operand(operand, row.operand)
            && has_its_flag(row)
            && row.pops == pops
            && row.pushes == pushes
            && is_spelled(alloc, row, mnemonic)?,
    )
}

/// The code of the first instruction that isn't as the other library has it; 0xFFFF where there are too many.
fn first_other(alloc: Global) -> Result<Option<u16>, AllocError> {
    let rows = opcodes();
    let mut index: usize = 0;
    for wanted in INSTRUCTIONS.iter() {
        if LEFT_OUT.contains(&wanted.0) {
            if find_opcode(wanted.0).is_some() || find_mnemonic(wanted.0).is_some() {
                return Ok(Some(wanted.0));
            }
        } else {
            match rows.get(index) {
                Some(row) if is_instruction(alloc, row, wanted)? => {}
                _ => return Ok(Some(wanted.0)),
            }
            index = index.saturating_add(1);
        }
    }
    Ok(if index == rows.len() {
        None
    } else {
        Some(0xFFFF)
    })
}

#[test]
fn the_instructions_are_those_of_another_library(rt: HostRuntime) -> Result<(), AllocError> {
    assert_eq!(rt; first_other(rt.alloc())?, None);
    Ok(())
}

/// The first code that has an instruction, although the other library has none.
fn first_unknown() -> Option<u16> {
    (0..=0xFFFFu16).find(|code| {
        find_opcode(*code).is_some() && !INSTRUCTIONS.iter().any(|known| known.0 == *code)
    })
}

#[test]
fn no_other_code_has_an_instruction(rt: HostRuntime) {
    assert_eq!(rt; first_unknown(), None);
}
