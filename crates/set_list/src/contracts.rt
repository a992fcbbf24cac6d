// The contracts of a set, and the contracts that are not read yet.
ghost use Rattle.std.specs.Prelude.{◌≡◌, ◌<◌, ◌^◌, ℕ, length, IfOk, MatchOption, OnOk};
ghost use Rattle.cil_base.specs.Refusals.{InLayers, NoneOf, OnRefused};
ghost use Rattle.own_contracts.specs.Own.{AreOwn};
ghost use Rattle.set_check.specs.Sets.{assemblies_of, bytes_at, bytes_of, files_from, IsReadProgram};
ghost use Rattle.set_list.specs.Lists.{contract_layers, unread_layers, Breaks, Names};

use crate::unread::first_unread_row;
use assembly::Assembly;
use cil_base::{Fault, Refusal};
use cil_model::{Contract, ContractList, Program};
use own_contracts::{first_heir, own_contracts};
use set_check::first_contract_row_from;
use std::alloc::{AllocError, Global};

/// Z1 at what is not read yet: a contract row of another assembly than the first, one of the first
/// with the name of an attribute, a method that has clauses from another source.
fn first_unread(
    alloc: Global,
    set: &[Assembly<'_>],
    program: &Program,
    contracts: &[Contract],
) -> Result<Option<Refusal>, AllocError>
    requires numbered { set.now ≡ files_from 0 (bytes_of set.now) }
    requires some { 0 < length set.now }
    requires program { IsReadProgram (assemblies_of (bytes_of set.now)) program.now }
    requires own { AreOwn program.now contracts.now }
    ensures { IfOk result (λ o. MatchOption o (NoneOf (Breaks (bytes_of set.now)) unread_layers) (InLayers (Breaks (bytes_of set.now)) (Names (bytes_of set.now)) unread_layers)) }
{
    if let Some(refusal) = first_contract_row_from(set, 1) {
        return Ok(Some(refusal));
    }
    if let Some(refusal) = first_unread_row(&set[0]) {
        return Ok(Some(refusal));
    }
    first_heir(alloc, program, contracts)
}

/// The own contracts of the methods of a set. The refusal is the first of C1 to C7 method by method,
/// then Z1 where effective contracts may be others.
pub(crate) fn checked_contracts(
    alloc: Global,
    set: &[Assembly<'_>],
    program: &Program,
) -> Result<ContractList, Fault>
    requires numbered { set.now ≡ files_from 0 (bytes_of set.now) }
    requires short { (a : ℕ) → length (bytes_at (bytes_of set.now) a) < 2 ^ 31 }
    requires some { 0 < length set.now }
    requires program { IsReadProgram (assemblies_of (bytes_of set.now)) program.now }
    ensures own { IfOk result (AreOwn program.now) }
    ensures accepted { OnOk result (NoneOf (Breaks (bytes_of set.now)) contract_layers) }
    ensures refused { OnRefused result (InLayers (Breaks (bytes_of set.now)) (Names (bytes_of set.now)) contract_layers) }
{
    let contracts = match own_contracts(alloc, program) {
        Ok(contracts) => contracts,
        Err(fault) => return Err(fault),
    };
    match first_unread(alloc, set, program, contracts.as_slice()) {
        Ok(None) => Ok(contracts),
        Ok(Some(refusal)) => Err(Fault::Refused(refusal)),
        Err(e) => Err(e.into()),
    }
}
