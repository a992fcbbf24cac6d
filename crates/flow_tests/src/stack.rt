// Heights, and what tokens mean.
ghost use Rattle.std.specs.Prelude.{◌<◌, ◌^◌, length};

use crate::bodies::{body_with, body_with_kind, first_row, here};
use cil_base::{Fault, Name, Rule, Units};
use cil_model::{
    Body, FieldDescs, Meaning, MethodDesc, MethodDescs, Program, RegionKind, TokenRow, TokenRows,
    Ty, TypeDescs, Tys,
};
use il_flow::{Heights, heights_of};
use std::alloc::{AllocError, Global};

fn put(alloc: Global, rows: &mut TokenRows, table: u8, meaning: Meaning) -> Result<(), AllocError> {
    rows.note(TokenRow {
        assembly: 3,
        token: first_row(table),
        meaning,
    })?;
    Ok(())
}

fn field() -> Meaning {
    Meaning::OfField {
        owner: Ty::Prim(0x1C),
        field: 0,
    }
}

fn method(alloc: Global) -> Meaning {
    Meaning::OfMethod {
        owner: Ty::Prim(0x1C),
        method: 0,
        args: Tys::new(alloc),
    }
}

fn locals(alloc: Global) -> Result<Meaning, AllocError> {
    let mut tys = Tys::new(alloc);
    tys.push(Ty::Prim(8))?;
    Ok(Meaning::OfLocals(tys))
}

/// The first row of each of six tables: a type, a field, a method, locals, a type parameter, and a
/// text.
fn tokens(alloc: Global) -> Result<TokenRows, AllocError> {
    let mut rows = TokenRows::new(alloc);
    put(alloc, &mut rows, 0x01, Meaning::OfType(Ty::Prim(0x1C)))?;
    put(alloc, &mut rows, 0x04, field())?;
    put(alloc, &mut rows, 0x06, method(alloc))?;
    put(alloc, &mut rows, 0x11, locals(alloc)?)?;
    put(alloc, &mut rows, 0x1B, Meaning::OfType(Ty::Var(0)))?;
    put(alloc, &mut rows, 0x70, Meaning::OfText(Units::new(alloc)))?;
    Ok(rows)
}

fn program_with(alloc: Global, tokens: TokenRows) -> Program {
    Program {
        types: TypeDescs::new(alloc),
        fields: FieldDescs::new(alloc),
        methods: MethodDescs::new(alloc),
        tokens,
    }
}

/// A static method without parameters or result.
fn own(alloc: Global) -> MethodDesc {
    MethodDesc {
        assembly: 3,
        row: 9,
        owner: 0,
        name: Name::new(alloc),
        params: Tys::new(alloc),
        result: Ty::Prim(1),
        sig: 0,
        is_static: true,
        flags: 0,
        outside: false,
        abbreviator: false,
        invariant: false,
        generated: false,
        body: None,
        generics: 0,
    }
}

/// What is told of a body: a rule and an offset, or that it has these heights.
#[derive(Clone, Copy)]
enum Told {
    Heights(bool),
    Refused(Rule, u32),
    Nothing,
}

/// Stands for the height of a place to which no path goes.
const NOWHERE: u32 = u32::MAX;

/// Whether an answer has these heights, 0 where no path goes, and tells just those places apart.
fn is_so(found: &Heights, expected: &[u32]) -> bool {
    let heights = found.heights.as_slice();
    let reached = found.reached.as_slice();
    if heights.len() != expected.len() || reached.len() != expected.len() {
        return false;
    }
    for k in 0..expected.len() {
        let goes = expected[k] != NOWHERE;
        if reached[k] != goes || heights[k] != (if goes { expected[k] } else { 0 }) {
            return false;
        }
    }
    true
}

fn told_in(alloc: Global, program: &Program, own: &MethodDesc, body: &Body, heights: &[u32]) -> Told
    requires { length body.now.instrs < 2 ^ 32 }
{
    match heights_of(alloc, program, own, body, here()) {
        Ok(found) => Told::Heights(is_so(&found, heights)),
        Err(Fault::Refused(refusal)) => Told::Refused(refusal.rule, refusal.at),
        Err(_) => Told::Nothing,
    }
}

fn told_by(alloc: Global, program: &Program, body: &Body, heights: &[u32]) -> Told
    requires { length body.now.instrs < 2 ^ 32 }
{
    let own = own(alloc);
    told_in(alloc, program, &own, body, heights)
}

fn told_of(alloc: Global, body: &Body, heights: &[u32]) -> Told
    requires { length body.now.instrs < 2 ^ 32 }
{
    match tokens(alloc) {
        Ok(tokens) => {
            let program = program_with(alloc, tokens);
            told_by(alloc, &program, body, heights)
        }
        Err(_) => Told::Nothing,
    }
}

fn answer_of(
    alloc: Global,
    code: &[u8],
    max_stack: u16,
    finally: bool,
    rows: &[[u32; 4]],
    heights: &[u32],
) -> Told {
    match body_with(alloc, code, finally, rows) {
        Some(mut body) => {
            body.max_stack = max_stack;
            told_of(alloc, &body, heights)
        }
        None => Told::Nothing,
    }
}

fn has_heights(alloc: Global, code: &[u8], heights: &[u32]) -> bool {
    matches!(
        answer_of(alloc, code, 8, true, &[], heights),
        Told::Heights(true)
    )
}

fn breaks(alloc: Global, code: &[u8], max_stack: u16, rule: Rule, at: u32) -> bool {
    matches!(answer_of(alloc, code, max_stack, true, &[], &[]), Told::Refused(r, k) if r == rule && k == at)
}

#[test]
fn each_path_gives_its_heights(rt: HostRuntime) {
    let alloc = rt.alloc();
    let behind_a_throw = has_heights(
        alloc,
        &[0x14, 0x7A, 0x16, 0x26, 0x2A],
        &[0, 1, NOWHERE, NOWHERE, NOWHERE],
    );
    let switch_forward_and_back = has_heights(
        alloc,
        &[
            0x16, 0x45, 2, 0, 0, 0, 1, 0, 0, 0, 0xF2, 0xFF, 0xFF, 0xFF, 0, 0x2A,
        ],
        &[0, 1, 0, 0],
    );
    let out_of_the_code = has_heights(alloc, &[0, 0x16], &[0, 0]);
    assert!(rt; behind_a_throw && switch_forward_and_back && out_of_the_code);
}

#[test]
fn handlers_begin_at_their_heights(rt: HostRuntime) {
    let alloc = rt.alloc();
    let code = [0, 0xDE, 3, 0x26, 0xDE, 0, 0x2A];
    let rows = [[0, 2, 2, 4]];
    let catch = answer_of(alloc, &code, 8, false, &rows, &[0, 0, 1, 0, 0]);
    let finally = answer_of(alloc, &code, 8, true, &rows, &[]);
    let try_at_1 = answer_of(
        alloc,
        &[0x16, 0xDE, 3, 0x26, 0xDE, 0, 0x2A],
        8,
        false,
        &[[1, 2, 2, 4]],
        &[],
    );
    assert!(rt; matches!(catch, Told::Heights(true)));
    assert!(rt; matches!(finally, Told::Refused(Rule::I4, 3)));
    assert!(rt; matches!(try_at_1, Told::Refused(Rule::I4, 1)));
}

#[test]
fn a_height_that_cant_be_is_refused_where_it_is_found(rt: HostRuntime) {
    let alloc = rt.alloc();
    let paths_differ = breaks(alloc, &[0x16, 0x2D, 1, 0x16, 0x2A], 8, Rule::I4, 4);
    let none_to_take = breaks(alloc, &[0, 0x26, 0x2A], 8, Rule::I4, 1);
    let above_the_maximum = breaks(alloc, &[0x16, 0x16, 0x26, 0x26, 0x2A], 1, Rule::I4, 1);
    let left_at_a_ret = breaks(alloc, &[0x16, 0x2A], 8, Rule::I4, 1);
    assert!(rt; paths_differ && none_to_take && above_the_maximum && left_at_a_ret);
}

/// An instruction behind a nop, with the first row of a table.
fn is_refused_at(alloc: Global, op: u8, table: u8) -> bool {
    breaks(alloc, &[0, op, 1, 0, 0, table, 0x2A], 8, Rule::I6, 1)
}

#[test]
fn each_token_means_what_its_instruction_needs(rt: HostRuntime) {
    let alloc = rt.alloc();
    let all_fit = has_heights(
        alloc,
        &[
            0x14, 0x74, 1, 0, 0, 1, 0x7B, 1, 0, 0, 4, 0x26, 0xD0, 1, 0, 0, 6, 0x26, 0x72, 1, 0, 0,
            0x70, 0x26, 0x28, 1, 0, 0, 6, 0x2A,
        ],
        &[0, 1, 1, 1, 0, 1, 0, 1, 0, 0],
    );
    let types = is_refused_at(alloc, 0x74, 4) && is_refused_at(alloc, 0x74, 0x70);
    let fields = is_refused_at(alloc, 0x7E, 1) && is_refused_at(alloc, 0x7E, 6);
    let methods = is_refused_at(alloc, 0x28, 4) && is_refused_at(alloc, 0x28, 1);
    let texts = is_refused_at(alloc, 0x72, 1) && is_refused_at(alloc, 0xD0, 0x70);
    let absent = is_refused_at(alloc, 0x28, 0x0A) && is_refused_at(alloc, 0x74, 2);
    assert!(rt; all_fit && types && fields && methods && texts && absent);
}

#[test]
fn parameters_arguments_and_locals_are_there(rt: HostRuntime) {
    let alloc = rt.alloc();
    let type_parameter = is_refused_at(alloc, 0x74, 0x1B);
    let argument = breaks(alloc, &[0, 0x02, 0x26, 0x2A], 8, Rule::I6, 1);
    let local = breaks(alloc, &[0, 0x06, 0x26, 0x2A], 8, Rule::I6, 1);
    assert!(rt; type_parameter && argument && local);
}

/// What is told of a load of the first local, where the locals are those of a table's first row.
fn locals_told(alloc: Global, table: u8) -> Told {
    match body_with(alloc, &[0x06, 0x26, 0x2A], true, &[]) {
        Some(mut body) => {
            body.locals = Some(first_row(table));
            told_of(alloc, &body, &[0, 1, 0])
        }
        None => Told::Nothing,
    }
}

/// What is told of a catch of the type that is a table's first row.
fn catch_told(alloc: Global, table: u8) -> Told {
    match body_with_kind(
        alloc,
        &[0, 0xDE, 3, 0x26, 0xDE, 0, 0x2A],
        RegionKind::Catch(first_row(table)),
        [0, 2, 2, 4],
    ) {
        Some(body) => told_of(alloc, &body, &[0, 0, 1, 0, 0]),
        None => Told::Nothing,
    }
}

/// What is told of a virtual call behind a nop and constrained. with a table's first row.
fn constrained_told(alloc: Global, table: u8) -> Told {
    answer_of(
        alloc,
        &[0, 0xFE, 0x16, 1, 0, 0, table, 0x6F, 1, 0, 0, 6, 0x2A],
        8,
        true,
        &[],
        &[0, 0, 0],
    )
}

fn is_broken_at(told: Told, at: u32) -> bool {
    matches!(told, Told::Refused(Rule::I6, k) if k == at)
}

#[test]
fn types_of_locals_catches_and_prefixes_are_there(rt: HostRuntime) {
    let alloc = rt.alloc();
    let fit = matches!(locals_told(alloc, 0x11), Told::Heights(true))
        && matches!(catch_told(alloc, 1), Told::Heights(true))
        && matches!(constrained_told(alloc, 1), Told::Heights(true));
    let locals = is_broken_at(locals_told(alloc, 1), 0)
        && is_broken_at(locals_told(alloc, 0x12), 0);
    let catches = is_broken_at(catch_told(alloc, 4), 0) && is_broken_at(catch_told(alloc, 0x1B), 0);
    let prefixes = is_broken_at(constrained_told(alloc, 4), 1)
        && is_broken_at(constrained_told(alloc, 0x1B), 1);
    assert!(rt; fit && locals && catches && prefixes);
}
