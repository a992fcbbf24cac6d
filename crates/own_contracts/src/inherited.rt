// Methods that have clauses from a source other than themselves.
ghost use Rattle.std.specs.Prelude.{◌≡◌, ◌<◌, length, IfOk, MatchOption};
ghost use Rattle.cil_base.specs.Refusals.{First, NoneBroken};
ghost use Rattle.cil_semantics.specs.Words.{any};
ghost use Rattle.own_contracts.specs.Own.{contract_at};
ghost use Rattle.own_contracts.specs.Order.{earlier_of};
ghost use Rattle.own_contracts.specs.Inherited.{has_any, is_of_target, lends, method_refusal, Inherits, InheritsAt};

use crate::contracts::number_of;
use crate::order::earlier;
use cil_base::tables::METHOD_DEF;
use cil_base::{Refusal, Rule};
use cil_model::{Contract, MethodDesc, Program, Source};
use look_ups::sources_of;
use std::alloc::{AllocError, Global};

/// Whether a method has clauses of its own.
#[tactic(auto, unfolding(crate::specs::Own::no_contract))]
fn has_clauses(contracts: &[Contract], m: u32) -> bool
    ensures { result ≡ has_any (contract_at contracts.now m).clauses }
{
    match contracts.get(m as usize) {
        Some(contract) => contract.clauses.len() > 0,
        None => false,
    }
}

fn lends(contracts: &[Contract], m: u32, source: &Source) -> bool
    ensures { result ≡ lends contracts.now m source.now }
{
    source.method != m && has_clauses(contracts, source.method)
}

fn is_lent(contracts: &[Contract], m: u32, sources: &[Source]) -> bool
    ensures { result ≡ any (lends contracts.now m) sources.now }
{
    for source in sources {
        if lends(contracts, m, source) {
            return true;
        }
    }
    false
}

fn is_of_target(method: &MethodDesc) -> bool
    ensures { result ≡ is_of_target method.now }
{
    method.assembly == 0 && !method.outside
}

fn refusal_at(row: u32) -> Refusal
    ensures { result ≡ method_refusal row }
{
    Refusal {
        rule: Rule::Z1,
        assembly: 0,
        table: METHOD_DEF,
        row,
        at: 0,
    }
}

/// Z1 at the row of a method of the first assembly that has clauses from another source.
fn heir(
    alloc: Global,
    program: &Program,
    contracts: &[Contract],
    m: u32,
) -> Result<Option<Refusal>, AllocError>
    requires { m < length program.now.methods }
    ensures { IfOk result (λ o. MatchOption o (NoneBroken (InheritsAt program.now contracts.now m)) (First (InheritsAt program.now contracts.now m))) }
{
    let Some(method) = program.methods.get(m as usize) else {
        return Ok(None);
    };
    if !is_of_target(method) {
        return Ok(None);
    }
    let sources = sources_of(alloc, program, m)?;
    if !is_lent(contracts, m, sources.as_slice()) {
        return Ok(None);
    }
    Ok(Some(refusal_at(method.row)))
}

fn earlier_of(best: Option<Refusal>, found: Option<Refusal>) -> Option<Refusal>
    ensures { result ≡ earlier_of best found }
{
    match found {
        None => best,
        Some(found) => earlier(best, found),
    }
}

/// Z1 at the first method of the first assembly that has clauses from a source other than itself, by
/// the own contracts of all methods.
pub fn first_heir(
    alloc: Global,
    program: &Program,
    contracts: &[Contract],
) -> Result<Option<Refusal>, AllocError>
    ensures { IfOk result (λ first. MatchOption first (NoneBroken (Inherits program.now contracts.now)) (First (Inherits program.now contracts.now))) }
{
    let mut first = None;
    for m in 0..program.methods.len() {
        first = earlier_of(first, heir(alloc, program, contracts, number_of(m)?)?);
    }
    Ok(first)
}
