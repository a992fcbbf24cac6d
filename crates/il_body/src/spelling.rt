// Which spelling an instruction has, and how many bytes it takes.
ghost use Rattle.std.specs.Prelude.{◌≡◌, ◌<◌, ◌≤◌, ◌+◌, ◌*◌, ◌^◌, ◌==◌, ◌&&◌, ℕ, find, length, [], IfSome, IsTrue};
ghost use Rattle.cil_model.specs.BodyLayout.{bit};
ghost use Rattle.cil_model.specs.ValidBody.{takes, takes_int, takes_index, takes_token, spelling_of};
ghost use Rattle.il_body.specs.BodyEncoding.{AreShortest, code_bytes, flag_bytes, constrained_bytes, front_bytes, operand_bytes, int_bytes, index_bytes, instr_size, cases_in};

use cil_base::Token;
use cil_model::{Instr, Operand};
use il_opcodes::{Opcode, OperandKind, spellings_from};

fn int_fits(kind: OperandKind, z: i64) -> bool
    ensures { result ≡ takes_int kind z }
{
    match kind {
        OperandKind::Int8 => -0x80 <= z && z < 0x80,
        OperandKind::Int32 => -0x8000_0000 <= z && z < 0x8000_0000,
        OperandKind::Int64 => true,
        OperandKind::ThatInt(y) => y == z,
        _ => false,
    }
}

fn index_fits(kind: OperandKind, k: u32) -> bool
    ensures { result ≡ takes_index kind k }
{
    match kind {
        OperandKind::Index8 => k < 0x100,
        OperandKind::Index16 => k < 0x10000,
        OperandKind::ThatIndex(j) => j == k,
        _ => false,
    }
}

fn is_token(kind: OperandKind) -> bool
    ensures { result ≡ takes_token kind }
{
    matches!(
        kind,
        OperandKind::TypeToken
            | OperandKind::FieldToken
            | OperandKind::MethodToken
            | OperandKind::StringToken
            | OperandKind::AnyToken
    )
}

/// Whether a spelling with this kind of operand can say the operand. A short branch says none.
fn says(kind: OperandKind, operand: &Operand) -> bool
    ensures { result ≡ takes kind operand.now }
{
    match operand {
        Operand::Nothing => matches!(kind, OperandKind::Nothing),
        Operand::Int(z) => int_fits(kind, *z),
        Operand::Index(k) => index_fits(kind, *k),
        Operand::Target(_) => matches!(kind, OperandKind::Target32),
        Operand::Targets(_) => matches!(kind, OperandKind::Targets),
        Operand::Tok { .. } => is_token(kind),
    }
}

fn spelling_in(rows: &[Opcode], op: u16, operand: &Operand) -> Option<Opcode>
    ensures { result ≡ find (λ o. (o.long == op) && takes o.operand operand.now) rows.now }
{
    rows.iter()
        .copied()
        .find(|o| o.long == op && says(o.operand, operand))
}

/// The first spelling in the table that says the instruction, which is the shortest.
pub(crate) fn spelling(op: u16, operand: &Operand) -> Option<Opcode>
    ensures { result ≡ spelling_of op operand.now }
{
    spelling_in(spellings_from(op), op, operand)
}

pub(crate) fn has_flag(value: u8, flags: u8) -> bool
    requires { 0 < value }
    ensures { result ≡ bit value flags }
{
    flags / value % 2 == 1
}

fn flag_size(value: u8, second: u8, flags: u8) -> usize
    requires { 0 < value }
    ensures size { result ≡ length (flag_bytes value second flags) }
    ensures small { result ≤ 2 }
{
    if has_flag(value, flags) { 2 } else { 0 }
}

fn type_size(constrained: &Option<Token>) -> usize
    ensures size { result ≡ length (constrained_bytes constrained.now) }
    ensures small { result ≤ 6 }
{
    match constrained {
        None => 0,
        Some(_) => 6,
    }
}

fn code_size(code: u16) -> usize
    ensures size { result ≡ length (code_bytes code) }
    ensures small { result ≤ 2 }
{
    if code < 0x100 { 1 } else { 2 }
}

/// How many bytes stand before the operand.
pub(crate) fn front_size(i: &Instr, o: Opcode) -> usize
    ensures size { result ≡ length (front_bytes i.now o) }
    ensures small { result ≤ 14 }
{
    let flags = flag_size(1, 0x13, i.prefixes)
        + flag_size(2, 0x14, i.prefixes)
        + flag_size(4, 0x1E, i.prefixes);
    type_size(&i.constrained) + flags + code_size(o.code)
}

fn int_size(kind: OperandKind, z: i64) -> usize
    ensures size { result ≡ length (int_bytes kind z) }
    ensures small { result ≤ 8 }
{
    match kind {
        OperandKind::Int8 => 1,
        OperandKind::Int32 => 4,
        OperandKind::Int64 => 8,
        _ => 0,
    }
}

fn index_size(kind: OperandKind, k: u32) -> usize
    ensures size { result ≡ length (index_bytes kind k) }
    ensures small { result ≤ 8 }
{
    match kind {
        OperandKind::Index8 => 1,
        OperandKind::Index16 => 2,
        _ => 0,
    }
}

fn operand_size(kind: OperandKind, operand: &Operand) -> usize
    requires { cases_in operand.now ≤ 2 ^ 22 }
    ensures size { (at : ℕ) → result ≡ length (operand_bytes [] at kind operand.now) }
    ensures small { result ≤ 8 + 4 * cases_in operand.now }
{
    match operand {
        Operand::Nothing => 0,
        Operand::Int(z) => int_size(kind, *z),
        Operand::Index(k) => index_size(kind, *k),
        Operand::Target(_) => 4,
        Operand::Targets(ks) => 4 + 4 * ks.len(),
        Operand::Tok { .. } => 4,
    }
}

/// How many bytes the instruction takes.
#[tactic(auto, unfolding(crate::specs::BodyEncoding::instr_bytes))]
pub(crate) fn size_of(i: &Instr) -> usize
    requires { cases_in i.now.operand ≤ 2 ^ 22 }
    ensures size { result ≡ instr_size i.now }
    ensures small { result ≤ 24 * (1 + cases_in i.now.operand) }
{
    match spelling(i.op, &i.operand) {
        None => 0,
        Some(o) => front_size(i, o) + operand_size(o.operand, &i.operand),
    }
}

/// Each instruction is spelled in as few bytes as it can be, but for branches.
pub fn spellings_are_shortest()
    ensures { AreShortest }
{}
