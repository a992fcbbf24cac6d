// Instructions besides nops.

ghost use Rattle.std.specs.Prelude.{◌≡◌, find, not, false, option_copied, option_map};
ghost use Rattle.cil_semantics.specs.Words.{only};
ghost use Rattle.contract_parts.specs.Parts.{is_nop, is_throw, loads_this, no_nops, begins_with_nop, first_line, last_line, index_of, is_it, three_of};

use crate::locals::{index_of, is_it};
use cil_model::Instr;

pub fn is_nop(instr: &Instr) -> bool
    ensures { result ≡ is_nop instr.now }
{
    instr.op == 0x00
}

pub fn is_throw(instr: &Instr) -> bool
    ensures { result ≡ is_throw instr.now }
{
    instr.op == 0x7A
}

/// The first instruction that is no nop.
pub(crate) fn first_line(instrs: &[Instr]) -> Option<&Instr>
    ensures { option_copied result ≡ first_line instrs.now }
{
    instrs.iter().find(|instr| !is_nop(instr))
}

/// The last instruction that is no nop.
pub(crate) fn last_line(instrs: &[Instr]) -> Option<&Instr>
    ensures { option_copied result ≡ last_line instrs.now }
{
    instrs.iter().rev().find(|instr| !is_nop(instr))
}

/// The instructions from the first on that is no nop.
pub(crate) fn past_nops(instrs: &[Instr]) -> &[Instr]
    ensures same { no_nops result.now ≡ no_nops instrs.now }
    ensures begins { begins_with_nop result.now ≡ false }
{
    for at in 0..instrs.len() {
        if !is_nop(&instrs[at]) {
            return &instrs[at..];
        }
    }
    &[]
}

/// The one instruction besides nops.
pub(crate) fn only_line(instrs: &[Instr]) -> Option<&Instr>
    ensures { option_copied result ≡ only (no_nops instrs.now) }
{
    match past_nops(instrs) {
        [line, rest @ ..] => {
            if past_nops(rest).is_empty() {
                Some(line)
            } else {
                None
            }
        }
        [] => None,
    }
}

/// The three instructions besides nops, where there are just three.
pub(crate) fn three_lines(instrs: &[Instr]) -> Option<(&Instr, &Instr, &Instr)>
    ensures { option_map (λ t. (t.0.now, t.1.now, t.2.now)) result ≡ three_of (no_nops instrs.now) }
{
    let [first, rest @ ..] = past_nops(instrs) else {
        return None;
    };
    let [second, rest @ ..] = past_nops(rest) else {
        return None;
    };
    let third = only_line(rest)?;
    Some((first, second, third))
}

/// The instruction is ldarg.0.
pub(crate) fn loads_this(instr: &Instr) -> bool
    ensures { result ≡ loads_this instr.now }
{
    instr.op == 0xFE09 && is_it(0, index_of(&instr.operand))
}
