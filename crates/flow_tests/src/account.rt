// The heights of one whole method.
ghost use Rattle.std.specs.Prelude.{◌<◌, ◌^◌, length};

use crate::bodies::{decoded, first_row, here};
use cil_base::{Name, Token, Units};
use cil_model::{
    Body, FieldDescs, Meaning, MethodDesc, MethodDescs, Program, TokenRow, TokenRows, Ty,
    TypeDescs, Tys,
};
use il_flow::heights_of;
use std::alloc::{AllocError, Global};

/// So many arguments of type `int`.
fn ints(alloc: Global, count: u8) -> Result<Tys, AllocError> {
    let mut tys = Tys::new(alloc);
    for _ in 0..count {
        tys.push(Ty::Prim(8))?;
    }
    Ok(tys)
}

/// A method with so many parameters and a result of one byte in signatures.
fn method(alloc: Global, count: u8, answer: u8, is_static: bool) -> Result<MethodDesc, AllocError> {
    Ok(MethodDesc {
        assembly: 3,
        row: 9,
        owner: 0,
        name: Name::new(alloc),
        params: ints(alloc, count)?,
        result: Ty::Prim(answer),
        sig: 0,
        is_static,
        flags: 0,
        outside: false,
        abbreviator: false,
        invariant: false,
        generated: false,
        body: None,
        generics: 0,
    })
}

/// What the method calls: a precondition's call with a text, the one for the result, the one for an old
/// value, and a postcondition's.
fn methods(alloc: Global) -> Result<MethodDescs, AllocError> {
    let mut descs = MethodDescs::new(alloc);
    descs.push(method(alloc, 2, 1, true)?)?;
    descs.push(method(alloc, 0, 8, true)?)?;
    descs.push(method(alloc, 1, 8, true)?)?;
    descs.push(method(alloc, 1, 1, true)?)?;
    Ok(descs)
}

fn call(alloc: Global, method: u32) -> Meaning {
    Meaning::OfMethod {
        owner: Ty::Prim(0x1C),
        method,
        args: Tys::new(alloc),
    }
}

fn put(tokens: &mut TokenRows, table: u8, row: u32, meaning: Meaning) -> Result<(), AllocError> {
    tokens.note(TokenRow {
        assembly: 3,
        token: Token { table, row },
        meaning,
    })?;
    Ok(())
}

fn tokens(alloc: Global) -> Result<TokenRows, AllocError> {
    let mut rows = TokenRows::new(alloc);
    let field = Meaning::OfField {
        owner: Ty::Prim(0x1C),
        field: 0,
    };
    put(&mut rows, 0x04, 1, field)?;
    put(&mut rows, 0x0A, 3, call(alloc, 0))?;
    put(&mut rows, 0x0A, 4, call(alloc, 3))?;
    put(&mut rows, 0x11, 1, Meaning::OfLocals(ints(alloc, 1)?))?;
    put(&mut rows, 0x2B, 1, call(alloc, 1))?;
    put(&mut rows, 0x2B, 2, call(alloc, 2))?;
    put(&mut rows, 0x70, 1, Meaning::OfText(Units::new(alloc)))?;
    Ok(rows)
}

fn program(alloc: Global) -> Result<Program, AllocError> {
    Ok(Program {
        types: TypeDescs::new(alloc),
        fields: FieldDescs::new(alloc),
        methods: methods(alloc)?,
        tokens: tokens(alloc)?,
    })
}

/// Takes an amount: it is above 0, the result is the old balance less the amount, and so is the new balance.
const TAKE: [u8; 79] = [
    0x03, 0x30, 8, 0, 67, 0, 0, 0, 0, 0, 0, 0, 0x00, 0x03, 0x16, 0xFE, 0x02, 0x72, 1, 0, 0, 0x70,
    0x28, 3, 0, 0, 0x0A, 0x00, 0x28, 1, 0, 0, 0x2B, 0x02, 0x7B, 1, 0, 0, 4, 0x28, 2, 0, 0, 0x2B,
    0x03, 0x59, 0xFE, 0x01, 0x28, 4, 0, 0, 0x0A, 0x00, 0x02, 0x02, 0x7B, 1, 0, 0, 4, 0x03, 0x59,
    0x7D, 1, 0, 0, 4, 0x02, 0x7B, 1, 0, 0, 4, 0x0A, 0x2B, 0, 0x06, 0x2A,
];

const HEIGHTS: [u32; 28] = [
    0, 0, 1, 2, 1, 2, 0, 0, 1, 2, 2, 2, 3, 2, 1, 0, 0, 1, 2, 2, 3, 2, 0, 1, 1, 0, 0, 1,
];

fn has_heights(alloc: Global, program: &Program, own: &MethodDesc, body: &Body) -> bool
    requires { length body.now.instrs < 2 ^ 32 }
{
    match heights_of(alloc, program, own, body, here()) {
        Ok(found) => found.heights.as_slice() == HEIGHTS.as_slice(),
        Err(_) => false,
    }
}

fn takes_heights(alloc: Global, body: &Body) -> Result<bool, AllocError>
    requires { length body.now.instrs < 2 ^ 32 }
{
    let program = program(alloc)?;
    let own = method(alloc, 1, 8, false)?;
    Ok(has_heights(alloc, &program, &own, body))
}

fn account_has_heights(alloc: Global) -> Result<bool, AllocError> {
    match decoded(alloc, &TAKE) {
        Some(mut body) => {
            body.locals = Some(first_row(0x11));
            takes_heights(alloc, &body)
        }
        None => Ok(false),
    }
}

#[test]
fn a_whole_method_has_its_heights(rt: HostRuntime) {
    assert!(rt; matches!(account_has_heights(rt.alloc()), Ok(true)));
}
