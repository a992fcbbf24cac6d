// The mnemonics of classes: what an instruction does is what its name says (ECMA-335, III.1.2).

use il_opcodes::{
    BinaryOp, Bits, Class, Comparison, NumberKind, Opcode, ShiftOp, Storage, UnaryOp,
};
use std::alloc::{AllocError, Global};

/// Mnemonics whose instructions do what another's do: all four bytes are kept, and the stack has no sign.
const ALIKE: [(u16, &str); 4] = [
    (0x01, "nop"),
    (0x4B, "ldind.i4"),
    (0x6D, "conv.i4"),
    (0x95, "ldelem.i4"),
];

/// The instructions of floating point.
const FLOATING: [&str; 14] = [
    "ldc.r4",
    "ldc.r8",
    "ldind.r4",
    "ldind.r8",
    "stind.r4",
    "stind.r8",
    "conv.r4",
    "conv.r8",
    "conv.r.un",
    "ldelem.r4",
    "ldelem.r8",
    "stelem.r4",
    "stelem.r8",
    "ckfinite",
];

const PREFIXES: [&str; 4] = ["volatile.", "tail.", "constrained.", "readonly."];

fn number_name(kind: NumberKind) -> &'static str {
    match kind {
        NumberKind::Small(Bits::B8, true) => "i1",
        NumberKind::Small(Bits::B8, false) => "u1",
        NumberKind::Small(Bits::B16, true) => "i2",
        NumberKind::Small(Bits::B16, false) => "u2",
        NumberKind::Small(Bits::B32, true) => "i4",
        NumberKind::Small(Bits::B32, false) => "u4",
        NumberKind::Wide(true) => "i8",
        NumberKind::Wide(false) => "u8",
        NumberKind::Native(true) => "i",
        NumberKind::Native(false) => "u",
    }
}

fn storage_name(storage: Storage) -> &'static str {
    match storage {
        Storage::Truncated(Bits::B8, true) => "i1",
        Storage::Truncated(Bits::B8, false) => "u1",
        Storage::Truncated(Bits::B16, true) => "i2",
        Storage::Truncated(Bits::B16, false) => "u2",
        Storage::Truncated(Bits::B32, true) => "i4",
        Storage::Long => "i8",
        Storage::NativeInt => "i",
        Storage::Reference => "ref",
        _ => "?",
    }
}

fn binary_name(op: BinaryOp) -> &'static str {
    match op {
        BinaryOp::Add => "add",
        BinaryOp::Sub => "sub",
        BinaryOp::Mul => "mul",
        BinaryOp::Div => "div",
        BinaryOp::DivUn => "div.un",
        BinaryOp::Rem => "rem",
        BinaryOp::RemUn => "rem.un",
        BinaryOp::And => "and",
        BinaryOp::Or => "or",
        BinaryOp::Xor => "xor",
        BinaryOp::AddOvf => "add.ovf",
        BinaryOp::AddOvfUn => "add.ovf.un",
        BinaryOp::MulOvf => "mul.ovf",
        BinaryOp::MulOvfUn => "mul.ovf.un",
        BinaryOp::SubOvf => "sub.ovf",
        BinaryOp::SubOvfUn => "sub.ovf.un",
    }
}

fn comparison_name(comparison: Comparison) -> &'static str {
    match comparison {
        Comparison::Eq => "eq",
        Comparison::Gt => "gt",
        Comparison::GtUn => "gt.un",
        Comparison::Lt => "lt",
        Comparison::LtUn => "lt.un",
    }
}

/// A branch where a comparison doesn't hold is that of the opposite one.
fn branch_name(comparison: Comparison, holds: bool) -> &'static str {
    match (comparison, holds) {
        (Comparison::Eq, true) => "beq",
        (Comparison::Eq, false) => "bne.un",
        (Comparison::Gt, true) => "bgt",
        (Comparison::Gt, false) => "ble",
        (Comparison::GtUn, true) => "bgt.un",
        (Comparison::GtUn, false) => "ble.un",
        (Comparison::Lt, true) => "blt",
        (Comparison::Lt, false) => "bge",
        (Comparison::LtUn, true) => "blt.un",
        (Comparison::LtUn, false) => "bge.un",
    }
}

/// The mnemonic of a class whose instructions have two parts in their names.
fn joined_name(class: Class) -> (&'static str, &'static str, &'static str) {
    match class {
        Class::Convert(kind) => ("conv.", number_name(kind), ""),
        Class::ConvertChecked(true, kind) => ("conv.ovf.", number_name(kind), ".un"),
        Class::ConvertChecked(false, kind) => ("conv.ovf.", number_name(kind), ""),
        Class::Compare(comparison) => ("c", comparison_name(comparison), ""),
        Class::LoadIndirect(storage) => ("ldind.", storage_name(storage), ""),
        Class::StoreIndirect(storage) => ("stind.", storage_name(storage), ""),
        Class::LoadElement(storage) => ("ldelem.", storage_name(storage), ""),
        Class::StoreElement(storage) => ("stelem.", storage_name(storage), ""),
        _ => (plain_name(class), "", ""),
    }
}

fn plain_name(class: Class) -> &'static str {
    match class {
        Class::Nop => "nop",
        Class::LoadArgument => "ldarg",
        Class::StoreArgument => "starg",
        Class::ArgumentAddress => "ldarga",
        Class::LoadLocal => "ldloc",
        Class::StoreLocal => "stloc",
        Class::LocalAddress => "ldloca",
        Class::LoadNull => "ldnull",
        Class::LoadInt => "ldc.i4",
        Class::LoadLong => "ldc.i8",
        Class::LoadString => "ldstr",
        Class::LoadToken => "ldtoken",
        Class::SizeOf => "sizeof",
        Class::LoadFunction => "ldftn",
        Class::LoadVirtualFunction => "ldvirtftn",
        Class::Duplicate => "dup",
        Class::Pop => "pop",
        Class::Binary(op) => binary_name(op),
        Class::Shift(ShiftOp::Shl) => "shl",
        Class::Shift(ShiftOp::Shr) => "shr",
        Class::Shift(ShiftOp::ShrUn) => "shr.un",
        Class::Unary(UnaryOp::Neg) => "neg",
        Class::Unary(UnaryOp::Not) => "not",
        Class::Jump => "br",
        Class::Switch => "switch",
        Class::Branch(true) => "brtrue",
        Class::Branch(false) => "brfalse",
        Class::CompareBranch(comparison, holds) => branch_name(comparison, holds),
        _ => member_name(class),
    }
}

/// The same for classes that work on objects and members, or leave the code.
fn member_name(class: Class) -> &'static str {
    match class {
        Class::CopyObject => "cpobj",
        Class::LoadObject => "ldobj",
        Class::StoreObject => "stobj",
        Class::InitObject => "initobj",
        Class::CastClass => "castclass",
        Class::IsInstance => "isinst",
        Class::Unbox => "unbox",
        Class::Box => "box",
        Class::UnboxAny => "unbox.any",
        Class::Throw => "throw",
        Class::Rethrow => "rethrow",
        Class::LoadField => "ldfld",
        Class::FieldAddress => "ldflda",
        Class::StoreField => "stfld",
        Class::LoadStatic => "ldsfld",
        Class::StaticAddress => "ldsflda",
        Class::StoreStatic => "stsfld",
        Class::NewArray => "newarr",
        Class::ArrayLength => "ldlen",
        Class::ElementAddress => "ldelema",
        Class::LoadTypedElement => "ldelem",
        Class::StoreTypedElement => "stelem",
        Class::EndFinally => "endfinally",
        Class::Leave => "leave",
        Class::Call => "call",
        Class::CallVirtual => "callvirt",
        Class::NewObject => "newobj",
        Class::Return => "ret",
        _ => "?",
    }
}

fn is_among(names: &[&str], mnemonic: &str) -> bool {
    names.iter().any(|name| *name == mnemonic)
}

/// The mnemonic that says what the instruction of a code and a mnemonic does.
fn plainest(code: u16, mnemonic: &'static str) -> &'static str {
    for (alike, name) in ALIKE {
        if alike == code {
            return name;
        }
    }
    mnemonic
}

/// Whether the class of a row is the one that the mnemonic of its longest spelling says.
pub fn is_of_class(
    alloc: Global,
    row: &Opcode,
    mnemonic: &'static str,
) -> Result<bool, AllocError> {
    match row.class {
        Class::Unsupported => Ok(is_among(&FLOATING, mnemonic)),
        Class::Prefix => Ok(is_among(&PREFIXES, mnemonic)),
        class => {
            let (first, second, third) = joined_name(class);
            let name = format!(in alloc; "{first}{second}{third}")?;
            Ok(name.as_str() == plainest(row.code, mnemonic))
        }
    }
}
