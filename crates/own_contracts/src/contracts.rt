// The own contract of each method.
ghost use Rattle.std.specs.Prelude.{◌≡◌, ◌<◌, ◌^◌, is_some, length, IfOk, IsSome, OnOk};
ghost use Rattle.cil_base.specs.Refusals.{First, NoneBroken, OnRefused};
ghost use Rattle.cil_semantics.specs.Lookups.{method_of};
ghost use Rattle.cil_semantics.specs.Unwind.{body_of};
ghost use Rattle.own_contracts.specs.Calls.{has_call, is_call};
ghost use Rattle.own_contracts.specs.Own.{no_contract, AreOwn, AreShort, BreaksAt, BreaksOwn, HaveHeights, IsOwn};
ghost use Rattle.own_contracts.specs.Taken.{Takes};

use crate::order::earlier;
use cil_base::{Fault, Refusal};
use cil_model::{Clauses, Contract, ContractList, Instr, Program};
use cil_semantics::ContractCall;
use contract_extract::own_contract;
use contract_parts::contract_call;
use std::alloc::{AllocError, Global};

/// What a method without a body says.
#[tactic(auto, unfolding(crate::specs::Own::no_contract))]
fn no_contract(alloc: Global) -> Contract
    ensures { result ≡ no_contract }
{
    Contract {
        lead_end: 0,
        rest_from: 0,
        clauses: Clauses::new(alloc),
        asserts: Clauses::new(alloc),
    }
}

/// The number of a method; want of memory past 2^32, since so many would not be held.
pub(crate) fn number_of(m: usize) -> Result<u32, AllocError>
    ensures { IfOk result (λ n. n ≡ m) }
{
    if m > 0xFFFF_FFFF {
        return Err(AllocError);
    }
    Ok(m as u32)
}

fn has_body(program: &Program, m: u32) -> bool
    ensures { result ≡ is_some (method_of program.now m).body }
{
    match program.methods.get(m as usize) {
        Some(method) => method.body.is_some(),
        None => false,
    }
}

fn is_call(call: ContractCall) -> bool
    ensures { result ≡ is_call call }
{
    !matches!(call, ContractCall::NoContractCall)
}

fn has_call(program: &Program, instrs: &[Instr]) -> bool
    ensures { result ≡ has_call program.now instrs.now }
{
    instrs
        .iter()
        .any(|instr| is_call(contract_call(program, instr)))
}

/// Whether the body of a method has a contract call.
fn calls_contract(program: &Program, m: u32) -> bool
    ensures { result ≡ has_call program.now (body_of program.now m).instrs }
{
    match program.methods.get(m as usize) {
        Some(method) => match &method.body {
            Some(body) => has_call(program, body.instrs.as_slice()),
            None => false,
        },
        None => false,
    }
}

/// The own contract of a method, or what its body breaks first. Without a contract call it says
/// nothing and breaks nothing, so no heights are looked for.
fn method_contract(alloc: Global, program: &Program, m: u32) -> Result<Contract, Fault>
    requires there { m < length program.now.methods }
    requires heights { HaveHeights program.now }
    requires short { AreShort program.now }
    ensures right { IfOk result (IsOwn program.now m) }
    ensures accepted { OnOk result (NoneBroken (BreaksAt program.now m)) }
    ensures refused { OnRefused result (First (BreaksAt program.now m)) }
{
    if !has_body(program, m) {
        return Ok(no_contract(alloc));
    }
    if !calls_contract(program, m) {
        return Ok(no_contract(alloc));
    }
    own_contract(alloc, program, m)
}

/// The contracts of the methods so far, and the first refusal among them.
#[derive(Drop)]
struct Found {
    contracts: ContractList,
    first: Option<Refusal>,
}

/// Takes the answer for one more method.
fn take(found: &mut Found, answer: Result<Contract, Fault>) -> Result<(), AllocError>
    ensures { OnOk result (Takes found.old answer found.new) }
{
    match answer {
        Ok(contract) => {
            found.contracts.push(contract)?;
            Ok(())
        }
        Err(Fault::Refused(refusal)) => {
            found.first = earlier(found.first, refusal);
            Ok(())
        }
        Err(Fault::Memory(e)) => Err(e),
    }
}

/// The own contract of each method of a program, in its order; that of one without a body is empty.
/// The refusal is the first of C1 to C7 by place and then by rule. Each body has heights.
pub fn own_contracts(alloc: Global, program: &Program) -> Result<ContractList, Fault>
    requires heights { HaveHeights program.now }
    requires short { AreShort program.now }
    ensures right { IfOk result (AreOwn program.now) }
    ensures accepted { OnOk result (NoneBroken (BreaksOwn program.now)) }
    ensures refused { OnRefused result (First (BreaksOwn program.now)) }
{
    let mut found = Found {
        contracts: ContractList::new(alloc),
        first: None,
    };
    for m in 0..program.methods.len() {
        let answer = method_contract(alloc, program, number_of(m)?);
        take(&mut found, answer)?;
    }
    let Found { contracts, first } = found;
    match first {
        Some(refusal) => Err(Fault::Refused(refusal)),
        None => Ok(contracts),
    }
}
