// The values of signatures (ECMA-335, II.23.2).

use cil_base::{I32s, U32s};
use sqlite_items::{Boxed, Items};

/// The list of types.
pub type SigTys = Items<SigTy>;

/// A type as a signature spells it (II.23.2.12). `coded` is a TypeDefOrRefOrSpec coded index as the
/// blob has it.
#[cycle(sig)]
#[derive(Drop)]
pub enum SigTy {
    /// A type that is one byte: a primitive type, string, object, void or TYPEDBYREF.
    Prim(u8),
    Ptr(Boxed<SigTy>),
    ByRef(Boxed<SigTy>),
    /// CLASS, or VALUETYPE where `value`.
    Named {
        value: bool,
        coded: u32,
    },
    /// A parameter of the generic type.
    Var(u32),
    /// A parameter of the generic method.
    MVar(u32),
    /// ARRAY with its shape (II.23.2.13); there may be fewer sizes and lower bounds than dimensions.
    Array {
        item: Boxed<SigTy>,
        rank: u32,
        sizes: U32s,
        lows: I32s,
    },
    /// GENERICINST of a class, or of a value type.
    Inst {
        value: bool,
        coded: u32,
        args: Items<SigTy>,
    },
    /// FNPTR.
    Func(Boxed<MethodSig>),
    SzArray(Boxed<SigTy>),
    /// CMOD_OPT, or CMOD_REQD where `required`.
    Modified {
        required: bool,
        coded: u32,
        inner: Boxed<SigTy>,
    },
    Pinned(Boxed<SigTy>),
}

/// The signature of a method or a property (II.23.2.1 to II.23.2.3, II.23.2.5).
#[cycle(sig)]
#[derive(Drop)]
pub struct MethodSig {
    /// The first byte: the calling convention, and GENERIC, HASTHIS and EXPLICITTHIS.
    pub flags: u8,
    /// The number of generic parameters, or 0 where the method isn't generic.
    pub generics: u32,
    pub result: SigTy,
    pub params: Items<SigTy>,
    /// The number of parameters before SENTINEL, where the signature has one.
    pub sentinel: Option<u32>,
}
