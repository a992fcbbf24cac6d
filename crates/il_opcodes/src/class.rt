// What the instructions do.

/// How many bits of a number of four bytes are kept.
#[derive(Clone, Copy)]
pub enum Bits {
    B8,
    B16,
    B32,
}

/// What a location holds (ECMA-335, III.1.1).
#[derive(Clone, Copy)]
pub enum Storage {
    /// A number of four bytes that keeps so many bits, with a sign or without.
    Truncated(Bits, bool),
    /// A number of eight bytes.
    Long,
    NativeInt,
    Reference,
    /// A managed pointer.
    Address,
    /// A value type with so many fields.
    Fields(usize),
    /// A value that is only carried along.
    Opaque,
    Anything,
    Void,
}

/// An operation on two numbers (ECMA-335, III.1.5, tables 2, 5 and 7).
#[derive(Clone, Copy)]
pub enum BinaryOp {
    Add,
    Sub,
    Mul,
    Div,
    DivUn,
    Rem,
    RemUn,
    And,
    Or,
    Xor,
    AddOvf,
    AddOvfUn,
    MulOvf,
    MulOvfUn,
    SubOvf,
    SubOvfUn,
}

#[derive(Clone, Copy)]
pub enum ShiftOp {
    Shl,
    Shr,
    ShrUn,
}

#[derive(Clone, Copy)]
pub enum UnaryOp {
    Neg,
    Not,
}

#[derive(Clone, Copy)]
pub enum Comparison {
    Eq,
    Gt,
    GtUn,
    Lt,
    LtUn,
}

/// The number that a conversion leaves (ECMA-335, III.1.5, table 8), with a sign or without: of
/// four bytes that keeps so many bits, of eight bytes, or native.
#[derive(Clone, Copy)]
pub enum NumberKind {
    Small(Bits, bool),
    Wide(bool),
    Native(bool),
}

/// What an instruction does. Those of one class differ by a function on values.
#[derive(Clone, Copy)]
pub enum Class {
    Nop,
    LoadArgument,
    StoreArgument,
    ArgumentAddress,
    LoadLocal,
    StoreLocal,
    LocalAddress,
    LoadNull,
    LoadInt,
    LoadLong,
    LoadString,
    LoadToken,
    SizeOf,
    LoadFunction,
    LoadVirtualFunction,
    Duplicate,
    Pop,
    Binary(BinaryOp),
    Shift(ShiftOp),
    Unary(UnaryOp),
    Convert(NumberKind),
    /// With overflow detection; `true` where what is converted is unsigned.
    ConvertChecked(bool, NumberKind),
    Compare(Comparison),
    Jump,
    Switch,
    /// Goes where the value is this.
    Branch(bool),
    /// Goes where the comparison is this.
    CompareBranch(Comparison, bool),
    LoadIndirect(Storage),
    StoreIndirect(Storage),
    CopyObject,
    LoadObject,
    StoreObject,
    InitObject,
    CastClass,
    IsInstance,
    Unbox,
    Box,
    UnboxAny,
    Throw,
    Rethrow,
    LoadField,
    FieldAddress,
    StoreField,
    LoadStatic,
    StaticAddress,
    StoreStatic,
    NewArray,
    ArrayLength,
    ElementAddress,
    LoadElement(Storage),
    StoreElement(Storage),
    LoadTypedElement,
    StoreTypedElement,
    EndFinally,
    Leave,
    Call,
    CallVirtual,
    NewObject,
    Return,
    /// Floating point, which the machine doesn't run.
    Unsupported,
    Prefix,
}
