// Own contracts of small bodies, and the rule that each wrong one breaks first.

use crate::sample::{BR, BRFALSE, CALL, LDARG, LDLOC, Line, POP, RET, STLOC, THROW, body, program};
use cil_base::{Fault, Rule};
use cil_model::{Body, Contract, Program};
use contract_extract::{own_contract, own_contract_of};
use contract_parts::Code;
use il_flow::heights_in;
use std::alloc::{AllocError, Global};

/// What is told of a body: how many clauses and asserts there are and where its rest begins, or the
/// rule that it breaks first and where.
#[derive(Clone, Copy, PartialEq, Eq)]
enum Told {
    Has {
        clauses: usize,
        asserts: usize,
        rest: u32,
    },
    Breaks(Rule, u32),
    Nothing,
}

fn summary(answer: &Result<Contract, Fault>) -> Told {
    match answer {
        Ok(contract) => Told::Has {
            clauses: contract.clauses.len(),
            asserts: contract.asserts.len(),
            rest: contract.rest_from,
        },
        Err(Fault::Refused(refusal)) => Told::Breaks(refusal.rule, refusal.at),
        Err(Fault::Memory(_)) => Told::Nothing,
    }
}

/// What is told of a body of the first method.
fn told_of(alloc: Global, p: &Program, body: &Body) -> Result<Told, AllocError> {
    let Some(own) = p.methods.get(0) else {
        return Ok(Told::Nothing);
    };
    if body.instrs.len() > 1000 {
        return Ok(Told::Nothing);
    }
    let Ok(found) = heights_in(alloc, p, own, body)? else {
        return Ok(Told::Nothing);
    };
    let code = Code::new(p, 0, own, body, &found.heights, found.reached.as_slice());
    let answer = own_contract_of(alloc, &code);
    Ok(summary(&answer))
}

fn told_in(alloc: Global, lines: &[Line]) -> Result<Told, AllocError> {
    let p = program(alloc, None)?;
    let b = body(alloc, lines)?;
    told_of(alloc, &p, &b)
}

/// What is told of the first method, whose heights are found too.
fn told_of_method(alloc: Global, p: &Program) -> Told {
    let Some(own) = p.methods.get(0) else {
        return Told::Nothing;
    };
    let Some(body) = &own.body else {
        return Told::Nothing;
    };
    if body.instrs.len() > 1000 {
        return Told::Nothing;
    }
    let answer = own_contract(alloc, p, 0);
    summary(&answer)
}

fn told_in_method(alloc: Global, lines: &[Line]) -> Result<Told, AllocError> {
    let p = program(alloc, Some(body(alloc, lines)?))?;
    Ok(told_of_method(alloc, &p))
}

fn has(alloc: Global, lines: &[Line], clauses: usize, asserts: usize, rest: u32) -> bool {
    matches!(told_in(alloc, lines), Ok(Told::Has { clauses: c, asserts: a, rest: r }) if c == clauses && a == asserts && r == rest)
}

fn breaks(alloc: Global, lines: &[Line], rule: Rule, at: u32) -> bool {
    matches!(told_in(alloc, lines), Ok(Told::Breaks(r, k)) if r == rule && k == at)
}

/// Requires(x), then Ensures(Result<int>()), then a body with an Assert.
const BOTH: [Line; 8] = [
    (LDARG, 0),
    (CALL, 1),
    (CALL, 4),
    (CALL, 2),
    (LDARG, 0),
    (CALL, 3),
    (LDARG, 0),
    (RET, 0),
];

fn contracts_are_read(alloc: Global) -> bool {
    has(alloc, &BOTH, 2, 1, 4)
        && has(alloc, &[(LDARG, 0), (RET, 0)], 0, 0, 0)
        && has(alloc, &[(CALL, 6), (LDARG, 0), (RET, 0)], 0, 0, 1)
}

/// A call that a branch crosses; Result in Requires; Invariant in another method; a call that leaves
/// a value.
fn wrong_ones_are_refused(alloc: Global) -> bool {
    breaks(
        alloc,
        &[
            (LDARG, 0),
            (BRFALSE, 4),
            (LDARG, 0),
            (CALL, 1),
            (LDARG, 0),
            (RET, 0),
        ],
        Rule::C1,
        3,
    ) && breaks(
        alloc,
        &[(CALL, 4), (CALL, 1), (LDARG, 0), (RET, 0)],
        Rule::C3,
        0,
    ) && breaks(
        alloc,
        &[(LDARG, 0), (CALL, 5), (LDARG, 0), (RET, 0)],
        Rule::C3,
        1,
    ) && breaks(
        alloc,
        &[(LDARG, 0), (LDARG, 0), (CALL, 1), (RET, 0)],
        Rule::C2,
        0,
    )
}

/// A throw between two calls of Requires.
fn throw_is_refused(alloc: Global) -> bool {
    breaks(
        alloc,
        &[
            (LDARG, 0),
            (CALL, 1),
            (LDARG, 0),
            (BRFALSE, 6),
            (LDARG, 0),
            (THROW, 0),
            (LDARG, 0),
            (CALL, 1),
            (LDARG, 0),
            (RET, 0),
        ],
        Rule::C5,
        2,
    )
}

/// A local that a segment stores is read in the rest, and one that the lead-in stores in a segment.
fn shared_locals_are_refused(alloc: Global) -> bool {
    breaks(
        alloc,
        &[
            (LDARG, 0),
            (STLOC, 0),
            (LDLOC, 0),
            (CALL, 1),
            (LDLOC, 0),
            (RET, 0),
        ],
        Rule::C6,
        4,
    ) && breaks(
        alloc,
        &[
            (LDARG, 0),
            (STLOC, 0),
            (LDARG, 0),
            (BRFALSE, 6),
            (LDARG, 0),
            (THROW, 0),
            (LDLOC, 0),
            (CALL, 1),
            (LDARG, 0),
            (RET, 0),
        ],
        Rule::C6,
        6,
    )
}

/// An argument of OldValue that holds Result, one that reads a local that its segment stores, and a call
/// that no path reaches.
fn old_values_are_refused(alloc: Global) -> bool {
    breaks(
        alloc,
        &[(CALL, 4), (CALL, 7), (CALL, 2), (LDARG, 0), (RET, 0)],
        Rule::C4,
        1,
    ) && breaks(
        alloc,
        &[
            (LDARG, 0),
            (STLOC, 0),
            (LDLOC, 0),
            (CALL, 7),
            (CALL, 2),
            (LDARG, 0),
            (RET, 0),
        ],
        Rule::C4,
        3,
    ) && breaks(
        alloc,
        &[
            (BR, 4),
            (LDARG, 0),
            (CALL, 7),
            (POP, 0),
            (LDARG, 0),
            (CALL, 2),
            (LDARG, 0),
            (RET, 0),
        ],
        Rule::C4,
        2,
    )
}

/// Requires and EnsuresOnThrow of a type that is no exception.
fn wrong_types_are_refused(alloc: Global) -> bool {
    breaks(
        alloc,
        &[(LDARG, 0), (CALL, 8), (LDARG, 0), (RET, 0)],
        Rule::C7,
        1,
    ) && breaks(
        alloc,
        &[(LDARG, 0), (CALL, 9), (LDARG, 0), (RET, 0)],
        Rule::C7,
        1,
    )
}

/// The same of a method of the program: a contract, a rule on blocks, and a local that isn't there.
fn methods_are_read_or_refused(alloc: Global) -> bool {
    matches!(
        told_in_method(alloc, &BOTH),
        Ok(Told::Has {
            clauses: 2,
            asserts: 1,
            rest: 4
        })
    ) && matches!(
        told_in_method(alloc, &[(CALL, 4), (CALL, 1), (LDARG, 0), (RET, 0)]),
        Ok(Told::Breaks(Rule::C3, 0))
    ) && matches!(
        told_in_method(alloc, &[(LDLOC, 0), (RET, 0)]),
        Ok(Told::Breaks(Rule::I6, 0))
    )
}

#[test]
fn own_contracts_are_read_or_refused(rt: HostRuntime) {
    let alloc = rt.alloc();
    let all = contracts_are_read(alloc)
        && wrong_ones_are_refused(alloc)
        && throw_is_refused(alloc)
        && shared_locals_are_refused(alloc)
        && old_values_are_refused(alloc)
        && wrong_types_are_refused(alloc);
    assert!(rt; all);
}

#[test]
fn contracts_of_methods_are_read_or_refused(rt: HostRuntime) {
    let alloc = rt.alloc();
    let all = methods_are_read_or_refused(alloc);
    assert!(rt; all);
}
