// An instruction and its mnemonic by a code.

ghost use Rattle.std.specs.Prelude.{◌≡◌, ◌<◌, ◌≤◌, ◌-◌, ◌+◌, ◌^◌, ℕ, drop, length, map, slice_get, slice_index, Option};
ghost use Rattle.std.specs.Option.{option_map};
ghost use Rattle.il_opcodes.specs.Opcodes.{the_opcodes, the_indexes, the_first_spellings, first_spelling, the_mnemonics, index_of, opcode_of, mnemonic_of, code_of_slot};

use crate::opcode::Opcode;
use crate::table::opcodes;

/// The index in the table of each code of one byte, and then of each code of two bytes from 0xFE00
/// on; the number of instructions for a code that is left out.
static INDEXES: [u8; 288] = [
    0, 1, 2, 3, 4, 5, 6, 7, 8, 9, 10, 11, 12, 13, 14, 15, 16, 17, 18, 19, 20, 21, 22, 23, 24, 25,
    26, 27, 28, 29, 30, 31, 32, 33, 34, 35, 207, 36, 37, 207, 38, 207, 39, 40, 41, 42, 43, 44, 45,
    46, 47, 48, 49, 50, 51, 52, 53, 54, 55, 56, 57, 58, 59, 60, 61, 62, 63, 64, 65, 66, 67, 68, 69,
    70, 71, 72, 73, 74, 75, 76, 77, 78, 79, 80, 81, 82, 83, 84, 85, 86, 87, 88, 89, 90, 91, 92, 93,
    94, 95, 96, 97, 98, 99, 100, 101, 102, 103, 104, 105, 106, 107, 108, 109, 110, 111, 112, 113,
    114, 115, 207, 207, 116, 117, 118, 119, 120, 121, 122, 123, 124, 125, 126, 127, 128, 129, 130,
    131, 132, 133, 134, 135, 136, 137, 138, 139, 140, 141, 142, 143, 144, 145, 146, 147, 148, 149,
    150, 151, 152, 153, 154, 155, 156, 157, 158, 159, 160, 207, 207, 207, 207, 207, 207, 207, 207,
    207, 207, 207, 207, 207, 161, 162, 163, 164, 165, 166, 167, 168, 207, 207, 207, 207, 207, 207,
    207, 207, 169, 207, 207, 207, 207, 207, 207, 207, 207, 207, 207, 207, 207, 170, 171, 172, 173,
    174, 175, 176, 177, 178, 179, 180, 181, 182, 183, 184, 185, 186, 207, 207, 207, 207, 207, 207,
    207, 207, 207, 207, 207, 207, 207, 207, 207, 207, 207, 207, 207, 207, 207, 207, 207, 207, 207,
    207, 207, 207, 207, 207, 207, 207, 187, 188, 189, 190, 191, 192, 193, 207, 194, 195, 196, 197,
    198, 199, 207, 207, 207, 207, 200, 201, 202, 203, 207, 207, 207, 204, 207, 205, 207, 206, 207,
];

/// The index of the first spelling of the instruction whose longest one has the code of a slot.
static FIRST_SPELLINGS: [u8; 288] = [
    0, 1, 207, 207, 207, 207, 207, 207, 207, 207, 207, 207, 207, 207, 207, 207, 207, 207, 207, 207,
    20, 207, 207, 207, 207, 207, 207, 207, 207, 207, 207, 207, 21, 33, 34, 35, 207, 36, 37, 207,
    38, 207, 39, 207, 207, 207, 207, 207, 207, 207, 207, 207, 207, 207, 207, 207, 40, 41, 42, 43,
    44, 45, 46, 47, 48, 49, 50, 51, 52, 66, 67, 68, 69, 70, 71, 72, 73, 74, 75, 76, 77, 78, 79, 80,
    81, 82, 83, 84, 85, 86, 87, 88, 89, 90, 91, 92, 93, 94, 95, 96, 97, 98, 99, 100, 101, 102, 103,
    104, 105, 106, 107, 108, 109, 110, 111, 112, 113, 114, 115, 207, 207, 116, 117, 118, 119, 120,
    121, 122, 123, 124, 125, 126, 127, 128, 129, 130, 131, 132, 133, 134, 135, 136, 137, 138, 139,
    140, 141, 142, 143, 144, 145, 146, 147, 148, 149, 150, 151, 152, 153, 154, 155, 156, 157, 158,
    159, 160, 207, 207, 207, 207, 207, 207, 207, 207, 207, 207, 207, 207, 207, 161, 162, 163, 164,
    165, 166, 167, 168, 207, 207, 207, 207, 207, 207, 207, 207, 169, 207, 207, 207, 207, 207, 207,
    207, 207, 207, 207, 207, 207, 170, 171, 172, 173, 174, 175, 176, 177, 178, 179, 180, 181, 182,
    183, 207, 185, 186, 207, 207, 207, 207, 207, 207, 207, 207, 207, 207, 207, 207, 207, 207, 207,
    207, 207, 207, 207, 207, 207, 207, 207, 207, 207, 207, 207, 207, 207, 207, 207, 207, 187, 188,
    189, 190, 191, 192, 193, 207, 2, 15, 16, 6, 18, 10, 207, 207, 207, 207, 200, 201, 202, 203,
    207, 207, 207, 204, 207, 205, 207, 206, 207,
];

/// The mnemonics, in the order of the table.
static MNEMONICS: [&str; 207] = [
    "nop",
    "break",
    "ldarg.0",
    "ldarg.1",
    "ldarg.2",
    "ldarg.3",
    "ldloc.0",
    "ldloc.1",
    "ldloc.2",
    "ldloc.3",
    "stloc.0",
    "stloc.1",
    "stloc.2",
    "stloc.3",
    "ldarg.s",
    "ldarga.s",
    "starg.s",
    "ldloc.s",
    "ldloca.s",
    "stloc.s",
    "ldnull",
    "ldc.i4.m1",
    "ldc.i4.0",
    "ldc.i4.1",
    "ldc.i4.2",
    "ldc.i4.3",
    "ldc.i4.4",
    "ldc.i4.5",
    "ldc.i4.6",
    "ldc.i4.7",
    "ldc.i4.8",
    "ldc.i4.s",
    "ldc.i4",
    "ldc.i8",
    "ldc.r4",
    "ldc.r8",
    "dup",
    "pop",
    "call",
    "ret",
    "br.s",
    "brfalse.s",
    "brtrue.s",
    "beq.s",
    "bge.s",
    "bgt.s",
    "ble.s",
    "blt.s",
    "bne.un.s",
    "bge.un.s",
    "bgt.un.s",
    "ble.un.s",
    "blt.un.s",
    "br",
    "brfalse",
    "brtrue",
    "beq",
    "bge",
    "bgt",
    "ble",
    "blt",
    "bne.un",
    "bge.un",
    "bgt.un",
    "ble.un",
    "blt.un",
    "switch",
    "ldind.i1",
    "ldind.u1",
    "ldind.i2",
    "ldind.u2",
    "ldind.i4",
    "ldind.u4",
    "ldind.i8",
    "ldind.i",
    "ldind.r4",
    "ldind.r8",
    "ldind.ref",
    "stind.ref",
    "stind.i1",
    "stind.i2",
    "stind.i4",
    "stind.i8",
    "stind.r4",
    "stind.r8",
    "add",
    "sub",
    "mul",
    "div",
    "div.un",
    "rem",
    "rem.un",
    "and",
    "or",
    "xor",
    "shl",
    "shr",
    "shr.un",
    "neg",
    "not",
    "conv.i1",
    "conv.i2",
    "conv.i4",
    "conv.i8",
    "conv.r4",
    "conv.r8",
    "conv.u4",
    "conv.u8",
    "callvirt",
    "cpobj",
    "ldobj",
    "ldstr",
    "newobj",
    "castclass",
    "isinst",
    "conv.r.un",
    "unbox",
    "throw",
    "ldfld",
    "ldflda",
    "stfld",
    "ldsfld",
    "ldsflda",
    "stsfld",
    "stobj",
    "conv.ovf.i1.un",
    "conv.ovf.i2.un",
    "conv.ovf.i4.un",
    "conv.ovf.i8.un",
    "conv.ovf.u1.un",
    "conv.ovf.u2.un",
    "conv.ovf.u4.un",
    "conv.ovf.u8.un",
    "conv.ovf.i.un",
    "conv.ovf.u.un",
    "box",
    "newarr",
    "ldlen",
    "ldelema",
    "ldelem.i1",
    "ldelem.u1",
    "ldelem.i2",
    "ldelem.u2",
    "ldelem.i4",
    "ldelem.u4",
    "ldelem.i8",
    "ldelem.i",
    "ldelem.r4",
    "ldelem.r8",
    "ldelem.ref",
    "stelem.i",
    "stelem.i1",
    "stelem.i2",
    "stelem.i4",
    "stelem.i8",
    "stelem.r4",
    "stelem.r8",
    "stelem.ref",
    "ldelem",
    "stelem",
    "unbox.any",
    "conv.ovf.i1",
    "conv.ovf.u1",
    "conv.ovf.i2",
    "conv.ovf.u2",
    "conv.ovf.i4",
    "conv.ovf.u4",
    "conv.ovf.i8",
    "conv.ovf.u8",
    "ckfinite",
    "ldtoken",
    "conv.u2",
    "conv.u1",
    "conv.i",
    "conv.ovf.i",
    "conv.ovf.u",
    "add.ovf",
    "add.ovf.un",
    "mul.ovf",
    "mul.ovf.un",
    "sub.ovf",
    "sub.ovf.un",
    "endfinally",
    "leave",
    "leave.s",
    "stind.i",
    "conv.u",
    "ceq",
    "cgt",
    "cgt.un",
    "clt",
    "clt.un",
    "ldftn",
    "ldvirtftn",
    "ldarg",
    "ldarga",
    "starg",
    "ldloc",
    "ldloca",
    "stloc",
    "volatile.",
    "tail.",
    "initobj",
    "constrained.",
    "rethrow",
    "sizeof",
    "readonly.",
];

fn indexes() -> &'static [u8]
    ensures value { result.now ≡ the_indexes }
    ensures count { length result.now ≡ 288 }
{
    &INDEXES
}

fn index_at(slot: usize) -> usize
    requires { slot < 288 }
    ensures { result ≡ index_of (code_of_slot slot) }
{
    indexes()[slot] as usize
}

/// The index of a code in the table, or the number of instructions for a code that is left out.
fn find_index(code: u16) -> usize
    ensures { result ≡ index_of code }
{
    if code < 0x100 {
        return index_at(code as usize);
    }
    if 0xFE00 <= code && code < 0xFE20 {
        return index_at((code - 0xFE00) as usize + 0x100);
    }
    207
}

fn copy_at(items: &[Opcode], at: usize) -> Option<Opcode>
    ensures { result ≡ slice_get items.now at }
{
    items.get(at).copied()
}

/// The instruction of a code, in one step, or nothing for a code that is left out.
pub fn find_opcode(code: u16) -> Option<Opcode>
    ensures { result ≡ opcode_of code }
{
    copy_at(opcodes(), find_index(code))
}

fn mnemonics() -> &'static [&'static str]
    ensures { map (λ s. s.now) result.now ≡ the_mnemonics }
{
    &MNEMONICS
}

fn copy_text(items: &[&'static str], at: usize) -> Option<&'static str>
    ensures { result ≡ slice_get items.now at }
{
    items.get(at).copied()
}

/// The mnemonic of a code.
pub fn find_mnemonic(code: u16) -> Option<&'static str>
    ensures { option_map (λ s. s.now) result ≡ mnemonic_of code }
{
    copy_text(mnemonics(), find_index(code))
}

fn first_spellings() -> &'static [u8]
    ensures value { result.now ≡ the_first_spellings }
    ensures count { length result.now ≡ 288 }
{
    &FIRST_SPELLINGS
}

fn first_at(slot: usize) -> usize
    requires { slot < 288 }
    ensures { result ≡ first_spelling (code_of_slot slot) }
{
    first_spellings()[slot] as usize
}

fn find_first(code: u16) -> usize
    ensures { result ≡ first_spelling code }
{
    if code < 0x100 {
        return first_at(code as usize);
    }
    if 0xFE00 <= code && code < 0xFE20 {
        return first_at((code - 0xFE00) as usize + 0x100);
    }
    207
}

fn rows_from(items: &'static [Opcode], from: usize) -> &'static [Opcode]
    ensures { result.now ≡ drop from items.now }
{
    &items[from.min(items.len())..]
}

/// The rows of the table from the first spelling on of the instruction whose longest one has this
/// code.
pub fn spellings_from(code: u16) -> &'static [Opcode]
    ensures { result.now ≡ drop (first_spelling code) the_opcodes }
{
    rows_from(opcodes(), find_first(code))
}
