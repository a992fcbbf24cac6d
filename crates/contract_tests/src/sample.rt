// A program of one class with members of Contract, and small bodies of its first method.

use cil_base::{Bytes, Token, U32s};
use cil_model::{
    Body, FieldDescs, Impls, Instr, Instrs, Kind, Meaning, MethodDesc, MethodDescs, Operand,
    Program, Regions, TokenRow, TokenRows, Ty, TypeDesc, TypeDescs, Tys,
};
use std::alloc::{AllocError, Global};

/// An instruction: its code, and a number for its operand.
pub type Line = (u16, u32);

pub const LDARG: u16 = 0xFE09;

pub const LDLOC: u16 = 0xFE0C;

pub const STLOC: u16 = 0xFE0E;

pub const INT: u16 = 0x20;

pub const CALL: u16 = 0x28;

pub const RET: u16 = 0x2A;

pub const BR: u16 = 0x38;

pub const BRFALSE: u16 = 0x39;

pub const THROW: u16 = 0x7A;

pub const POP: u16 = 0x26;

/// The code of a type parameter of the method (ECMA-335, II.23.1.16).
const MVAR: u8 = 0x1E;

fn token(row: u32) -> Token {
    Token { table: 0x0A, row }
}

fn operand(line: Line) -> Operand {
    match line.0 {
        LDARG | LDLOC | STLOC => Operand::Index(line.1),
        INT => Operand::Int(i64::from(line.1)),
        CALL => Operand::Tok {
            assembly: 0,
            token: token(line.1),
        },
        BR | BRFALSE => Operand::Target(line.1),
        _ => Operand::Nothing,
    }
}

fn instr(line: Line) -> Instr {
    Instr {
        op: line.0,
        operand: operand(line),
        constrained: None,
        prefixes: 0,
        under: None,
    }
}

/// A body of these instructions, whose offsets are their places.
pub fn body(alloc: Global, lines: &[Line]) -> Result<Body, AllocError> {
    let mut instrs = Instrs::new(alloc);
    let mut offsets = U32s::new(alloc);
    let mut place = 0u32;
    for line in lines {
        instrs.push(instr(*line))?;
        offsets.push(place)?;
        place = place.saturating_add(1);
    }
    Ok(Body {
        instrs,
        offsets,
        regions: Regions::new(alloc),
        locals: None,
        max_stack: 8,
        init: true,
    })
}

fn type_named(alloc: Global, name: &[u8]) -> Result<TypeDesc, AllocError> {
    Ok(TypeDesc {
        assembly: 0,
        row: 0,
        name: Bytes::from_slice(alloc, name)?,
        base: None,
        kind: Kind::Class,
        interfaces: Tys::new(alloc),
        fields: U32s::new(alloc),
        methods: U32s::new(alloc),
        impls: Impls::new(alloc),
        enclosing: None,
        flags: 0,
        outside: false,
        reference: false,
        contract_class: None,
        contract_class_for: None,
        generated: false,
        generics: 0,
    })
}

/// A type of one byte, or the method's first type parameter.
fn type_of_code(code: u8) -> Ty {
    if code == MVAR {
        Ty::MVar(0)
    } else {
        Ty::Prim(code)
    }
}

/// A static method with these parameters, and an answer of this type.
fn method_named(
    alloc: Global,
    owner: u32,
    name: &[u8],
    params: &[u8],
    answer: u8,
    generics: u32,
) -> Result<MethodDesc, AllocError> {
    let mut tys = Tys::new(alloc);
    for param in params {
        tys.push(type_of_code(*param))?;
    }
    Ok(MethodDesc {
        assembly: 0,
        row: 1,
        owner,
        name: Bytes::from_slice(alloc, name)?,
        params: tys,
        result: Ty::Prim(answer),
        sig: 0,
        is_static: true,
        flags: 6,
        outside: false,
        abbreviator: false,
        invariant: false,
        generated: false,
        body: None,
        generics,
    })
}

/// The method M(int32).
fn own_method(alloc: Global, body: Option<Body>) -> Result<MethodDesc, AllocError> {
    let mut desc = method_named(alloc, 0, b"M", &[8], 8, 0)?;
    desc.body = body;
    Ok(desc)
}

/// Its own method M(int32), and the members of Contract by their rows: 1 Requires, 2 Ensures,
/// 3 Assert, 4 Result<int32>, 5 Invariant, 6 EndContractBlock, 7 OldValue<int32>, 8 Requires<int32>,
/// 9 EnsuresOnThrow<int32>.
fn methods(alloc: Global, own: Option<Body>) -> Result<MethodDescs, AllocError> {
    let mut out = MethodDescs::new(alloc);
    out.push(own_method(alloc, own)?)?;
    out.push(method_named(alloc, 1, b"Requires", &[2], 1, 0)?)?;
    out.push(method_named(alloc, 1, b"Ensures", &[2], 1, 0)?)?;
    out.push(method_named(alloc, 1, b"Assert", &[2], 1, 0)?)?;
    out.push(method_named(alloc, 1, b"Result", &[], 8, 1)?)?;
    out.push(method_named(alloc, 1, b"Invariant", &[2], 1, 0)?)?;
    out.push(method_named(alloc, 1, b"EndContractBlock", &[], 1, 0)?)?;
    out.push(method_named(alloc, 1, b"OldValue", &[MVAR], 8, 1)?)?;
    out.push(method_named(alloc, 1, b"Requires", &[2], 1, 1)?)?;
    out.push(method_named(alloc, 1, b"EnsuresOnThrow", &[2], 1, 1)?)?;
    Ok(out)
}

/// The type arguments of the member of that row: int32, where it has a type parameter.
fn arguments(alloc: Global, row: u32) -> Result<Tys, AllocError> {
    let mut args = Tys::new(alloc);
    if matches!(row, 4 | 7 | 8 | 9) {
        args.push(Ty::Prim(8))?;
    }
    Ok(args)
}

fn tokens(alloc: Global) -> Result<TokenRows, AllocError> {
    let mut out = TokenRows::new(alloc);
    for row in 1..10u32 {
        out.note(TokenRow {
            assembly: 0,
            token: token(row),
            meaning: Meaning::OfMethod {
                owner: Ty::Known(1),
                method: row,
                args: arguments(alloc, row)?,
            },
        })?;
    }
    Ok(out)
}

fn types(alloc: Global) -> Result<TypeDescs, AllocError> {
    let mut out = TypeDescs::new(alloc);
    out.push(type_named(alloc, b"T")?)?;
    out.push(type_named(alloc, b"System.Diagnostics.Contracts.Contract")?)?;
    Ok(out)
}

/// The program whose first method has this body.
pub fn program(alloc: Global, own: Option<Body>) -> Result<Program, AllocError> {
    Ok(Program {
        types: types(alloc)?,
        fields: FieldDescs::new(alloc),
        methods: methods(alloc, own)?,
        tokens: tokens(alloc)?,
    })
}
