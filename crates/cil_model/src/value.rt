// The values that a run computes with.

use crate::ty::{Ty, TypeArgs};
use cil_base::{Bytes, U32s, Units};
use sqlite_items::{Boxed, Items};

/// What a pointer points to (ECMA-335, I.12.1.1.2 and III.1.1.5.2). `frame` counts the frames below
/// it and `method` is the method that it runs. `path` leads from a cell to a field of a struct in it.
#[derive(Drop)]
pub enum Pointer {
    Arg {
        frame: u64,
        method: u32,
        index: u32,
        path: U32s,
    },
    Local {
        frame: u64,
        method: u32,
        index: u32,
        path: U32s,
    },
    /// A cell of an object, by its number in the path.
    Inside {
        object: u32,
        path: U32s,
    },
    /// A static field of a closed type.
    Static {
        owner: Ty,
        field: u32,
        path: U32s,
    },
}

/// A value on the stack, in a cell, or in the text of a run (ECMA-335, III.1.1). Pointers and the
/// arguments of functions are boxed, so that a value is small.
#[cycle(value)]
#[derive(Drop)]
pub enum Value {
    I4(i32),
    I8(i64),
    Native(i64),
    Null,
    /// The k-th object made, from 1.
    Obj(u32),
    Text(Units),
    Ptr(Boxed<Pointer>),
    /// A struct of the set, with one value for each instance field.
    Struct(Items<Value>),
    /// A method with the arguments of its type and its own.
    Func { method: u32, under: Boxed<TypeArgs> },
    /// A value that is carried along unread.
    Opaque(Bytes),
}

pub type Values = Items<Value>;

// A run holds millions of values.
const _: () = prove!(size_of::<Value>() == 32);
