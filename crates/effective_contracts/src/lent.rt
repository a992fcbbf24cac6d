// Clauses that a method has from elsewhere, and what stands for their type parameters.

ghost use Rattle.std.specs.Prelude.{◌≡◌, ◌++◌, get_or, [], if◌then◌else◌, IfOk, OnOk};
ghost use Rattle.own_contracts.specs.Own.{contract_at};
ghost use Rattle.effective_contracts.specs.Invariants.{args_under};
ghost use Rattle.effective_contracts.specs.Effective.{own_clauses, said_by, source_under};

use crate::facts::speaks_for_others;
use cil_model::{
    Clause, Clauses, Contract, Instance, Instances, OwnContracts, Program, Source, Ty, Tys, Under,
};
use clause_types::{push_clauses_under, push_instances};
use sqlite_items::{Boxed, Items};
use std::alloc::{AllocError, Global};

/// Lists of instances, one for each type.
pub type InstanceLists = Items<Instances>;

/// The instances that are given for what stands at a place.
pub(crate) fn instances_at(given: &[Instances], at: usize) -> &[Instance]
    ensures { result.now ≡ get_or given.now at [] }
{
    match given.get(at) {
        Some(instances) => instances.as_slice(),
        None => &[],
    }
}

fn copied_args(alloc: Global, args: &[Ty]) -> Result<Tys, AllocError>
    ensures { IfOk result (λ it. it ≡ args.now) }
{
    let mut out = Tys::new(alloc);
    for arg in args {
        out.push(arg.copied(alloc)?)?;
    }
    Ok(out)
}

fn under_of(alloc: Global, args: &[Ty], given: &[Instance]) -> Result<Under, AllocError>
    ensures { IfOk result (λ it. it ≡ record { type_args = args.now; method_args = []; instances = given.now }) }
{
    let mut instances = Instances::new(alloc);
    push_instances(alloc, &mut instances, given)?;
    Ok(Under {
        type_args: copied_args(alloc, args)?,
        method_args: Tys::new(alloc),
        instances,
    })
}

/// What stands for the parameters of a type with these arguments.
pub(crate) fn args_under(
    alloc: Global,
    args: &[Ty],
    given: &[Instance],
) -> Result<Option<Boxed<Under>>, AllocError>
    ensures { IfOk result (λ it. it ≡ args_under args.now given.now) }
{
    match args {
        [] => Ok(None),
        _ => {
            let under = under_of(alloc, args, given)?;
            Ok(Some(Boxed::new(alloc, under)?))
        }
    }
}

fn source_under(
    alloc: Global,
    m: u32,
    source: &Source,
    given: &[Instance],
) -> Result<Option<Boxed<Under>>, AllocError>
    ensures { IfOk result (λ it. it ≡ source_under m source.now given.now) }
{
    if source.method == m {
        return Ok(None);
    }
    args_under(alloc, source.args.as_slice(), given)
}

#[tactic(auto, unfolding(own_contracts::specs::Own::no_contract))]
fn clauses_at(contracts: &[Contract], m: u32) -> &[Clause]
    ensures { result.now ≡ (contract_at contracts.now m).clauses }
{
    match contracts.get(m as usize) {
        Some(contract) => contract.clauses.as_slice(),
        None => &[],
    }
}

/// The clauses that a method has of its own.
pub(crate) fn own_clauses<'a>(program: &Program, own: &'a OwnContracts, m: u32) -> &'a [Clause]
    ensures { result.now ≡ own_clauses program.now own.now m }
{
    if speaks_for_others(program, m) {
        return &[];
    }
    clauses_at(own.by_method.as_slice(), m)
}

/// Appends what a source with its place says of a method.
pub(crate) fn push_said(
    alloc: Global,
    out: &mut Clauses,
    program: &Program,
    own: &OwnContracts,
    m: u32,
    given: &[Instances],
    at: usize,
    source: &Source,
) -> Result<(), AllocError>
    ensures { OnOk result (out.new ≡ out.old ++ said_by program.now own.now m given.now (at, source.now)) }
{
    let under = source_under(alloc, m, source, instances_at(given, at))?;
    push_clauses_under(alloc, out, &under, own_clauses(program, own, source.method))
}
