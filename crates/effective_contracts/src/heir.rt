// The effective contract of a method.

ghost use Rattle.std.specs.Prelude.{◌≡◌, ◌++◌, map, IfOk, OnOk};
ghost use Rattle.std.specs.List.{enumerate_from, flat_map};
ghost use Rattle.own_contracts.specs.Own.{contract_at};
ghost use Rattle.effective_contracts.specs.Effective.{clauses, effective, said_by};

use crate::bases::invariants;
use crate::facts::speaks_for_others;
use crate::lent::push_said;
use cil_model::{Clause, Clauses, Contract, Effective, Instances, OwnContracts, Program, Source};
use clause_types::push_clauses;
use look_ups::sources_of;
use std::alloc::{AllocError, Global};

fn said(
    alloc: Global,
    program: &Program,
    own: &OwnContracts,
    m: u32,
    given: &[Instances],
    sources: &[Source],
) -> Result<Clauses, AllocError>
    ensures { IfOk result (λ out. out ≡ flat_map (said_by program.now own.now m given.now) (enumerate_from 0 sources.now)) }
{
    let mut out = Clauses::new(alloc);
    let mut at = 0;
    for source in sources {
        push_said(alloc, &mut out, program, own, m, given, at, source)?;
        at += 1;
    }
    Ok(out)
}

fn clauses(
    alloc: Global,
    program: &Program,
    own: &OwnContracts,
    m: u32,
    given: &[Instances],
) -> Result<Clauses, AllocError>
    ensures { IfOk result (λ out. out ≡ clauses program.now own.now m given.now) }
{
    if speaks_for_others(program, m) {
        return Ok(Clauses::new(alloc));
    }
    let sources = sources_of(alloc, program, m)?;
    said(alloc, program, own, m, given, sources.as_slice())
}

/// Where the lead-in ends and the rest begins.
#[tactic(auto, unfolding(own_contracts::specs::Own::no_contract))]
fn parts(contracts: &[Contract], m: u32) -> (u32, u32)
    ensures lead { result.0 ≡ (contract_at contracts.now m).lead_end }
    ensures rest { result.1 ≡ (contract_at contracts.now m).rest_from }
{
    match contracts.get(m as usize) {
        Some(contract) => (contract.lead_end, contract.rest_from),
        None => (0, 0),
    }
}

#[tactic(auto, unfolding(own_contracts::specs::Own::no_contract))]
fn asserts_at(contracts: &[Contract], m: u32) -> &[Clause]
    ensures { result.now ≡ (contract_at contracts.now m).asserts }
{
    match contracts.get(m as usize) {
        Some(contract) => contract.asserts.as_slice(),
        None => &[],
    }
}

fn asserts(alloc: Global, contracts: &[Contract], m: u32) -> Result<Clauses, AllocError>
    ensures { IfOk result (λ out. out ≡ (contract_at contracts.now m).asserts) }
{
    let mut out = Clauses::new(alloc);
    push_clauses(alloc, &mut out, asserts_at(contracts, m))?;
    Ok(out)
}

/// The effective contract of a method of TARGET, the assembly of this number: the clauses of its sources in
/// order, each under its instance, the invariants of its type, those of bases first, and its own asserts.
/// The instances are those by which the sources are named, in the order of `sources_of`, and those by which
/// the types are from which the type comes, itself first.
#[tactic(auto, unfolding(crate::specs::Effective::effective))]
pub fn effective(
    alloc: Global,
    program: &Program,
    own: &OwnContracts,
    target: u32,
    m: u32,
    sources: &[Instances],
    bases: &[Instances],
) -> Result<Effective, AllocError>
    ensures { IfOk result (λ e. e ≡ effective program.now own.now target m sources.now bases.now) }
{
    let contracts = own.by_method.as_slice();
    let (lead_end, rest_from) = parts(contracts, m);
    Ok(Effective {
        lead_end,
        rest_from,
        clauses: clauses(alloc, program, own, m, sources)?,
        invariants: invariants(alloc, program, own, target, m, bases)?,
        asserts: asserts(alloc, contracts, m)?,
    })
}
