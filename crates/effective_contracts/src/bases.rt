// The invariants of a type and its bases.

ghost use Rattle.std.specs.Prelude.{◌≡◌, ◌++◌, [], get_or, map, IfOk, OnOk};
ghost use Rattle.cil_semantics.specs.Lookups.{args_of, chain, method_of};
ghost use Rattle.effective_contracts.specs.Invariants.{base_first, invariants, type_invariants};

use crate::facts::{checks_invariants, is_of, speaks_for_others};
use crate::lent::{args_under, instances_at};
use cil_model::{Clause, Clauses, Instance, Instances, OwnContracts, Program, Ty};
use clause_types::push_clauses_under;
use look_ups::{args_of, chain_of, definition_of};
use std::alloc::{AllocError, Global};

fn invariants_at(lists: &[Clauses], k: u32) -> &[Clause]
    ensures { result.now ≡ get_or lists.now k [] }
{
    match lists.get(k as usize) {
        Some(clauses) => clauses.as_slice(),
        None => &[],
    }
}

/// Appends the invariants of a type of TARGET.
fn push_invariants(
    alloc: Global,
    out: &mut Clauses,
    program: &Program,
    own: &OwnContracts,
    target: u32,
    ty: &Ty,
    given: &[Instance],
) -> Result<(), AllocError>
    ensures { OnOk result (out.new ≡ out.old ++ type_invariants program.now own.now target ty.now given.now) }
{
    let Some(k) = definition_of(ty) else {
        return Ok(());
    };
    if !is_of(program, target, k) {
        return Ok(());
    }
    let under = args_under(alloc, args_of(ty), given)?;
    push_clauses_under(
        alloc,
        out,
        &under,
        invariants_at(own.invariants.as_slice(), k),
    )
}

fn base_first(
    alloc: Global,
    program: &Program,
    own: &OwnContracts,
    target: u32,
    given: &[Instances],
    types: &[Ty],
) -> Result<Clauses, AllocError>
    ensures { IfOk result (λ out. out ≡ base_first program.now own.now target given.now 0 types.now) }
{
    let mut out = Clauses::new(alloc);
    for k in (0..types.len()).rev() {
        push_invariants(
            alloc,
            &mut out,
            program,
            own,
            target,
            &types[k],
            instances_at(given, k),
        )?;
    }
    Ok(out)
}

#[tactic(auto, unfolding(cil_semantics::specs::Lookups::no_method))]
fn owner_of(program: &Program, m: u32) -> u32
    ensures { result ≡ (method_of program.now m).owner }
{
    match program.methods.get(m as usize) {
        Some(method) => method.owner,
        None => 0,
    }
}

/// The invariants that a method checks, those of bases first.
pub(crate) fn invariants(
    alloc: Global,
    program: &Program,
    own: &OwnContracts,
    target: u32,
    m: u32,
    given: &[Instances],
) -> Result<Clauses, AllocError>
    ensures { IfOk result (λ out. out ≡ invariants program.now own.now target m given.now) }
{
    if !checks_invariants(program, m) || speaks_for_others(program, m) {
        return Ok(Clauses::new(alloc));
    }
    let types = chain_of(alloc, program, &Ty::Known(owner_of(program, m)))?;
    base_first(alloc, program, own, target, given, types.as_slice())
}
