// An instruction in the table.

use crate::class::Class;

/// What an instruction is given: behind its code (ECMA-335, III.1.9), or by the code itself.
#[derive(Clone, Copy)]
pub enum OperandKind {
    Nothing,
    /// A signed number of one byte.
    Int8,
    /// A signed number of four bytes, or the bits of a float32.
    Int32,
    /// A signed number of eight bytes, or the bits of a float64.
    Int64,
    /// The number of an argument or a local, in one byte.
    Index8,
    /// The same in two bytes.
    Index16,
    /// A displacement from the next instruction, in one byte.
    Target8,
    /// The same in four bytes.
    Target32,
    /// A count of four bytes, and as many displacements of four.
    Targets,
    TypeToken,
    FieldToken,
    MethodToken,
    StringToken,
    AnyToken,
    /// The number that the code itself says.
    ThatIndex(u32),
    ThatInt(i64),
    /// A prefix, by its bit in `Instr::prefixes`.
    Flag(u8),
    /// The prefix `constrained.`, with the token of a type.
    Constrained,
}

/// An instruction: its code, 0xFE00 and the second byte where it has two; the code of
/// its longest spelling; its operand; how many values it takes from the stack and leaves there,
/// where its code says that; and what it does.
#[derive(Clone, Copy)]
pub struct Opcode {
    pub code: u16,
    pub long: u16,
    pub operand: OperandKind,
    pub pops: Option<u8>,
    pub pushes: Option<u8>,
    pub class: Class,
}
