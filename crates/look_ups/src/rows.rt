// What the MethodImpl rows of a type say.
ghost use Rattle.std.specs.Prelude.{◌≡◌, ◌++◌, ◌==◌, ◌&&◌, [], filter, map, IfOk, OnOk};
ghost use Rattle.cil_model.specs.declared.program.Impl.{Impl};
ghost use Rattle.cil_semantics.specs.Dispatch.{by_rows, impls_of, methods_of, row_counts, row_names};
ghost use Rattle.cil_semantics.specs.Lookups.{args_of, chain, method_of, no_method, type_of};
ghost use Rattle.cil_semantics.specs.Types.{same_ty, under};

use crate::bases::{args_of, definition_of};
use crate::chain::owner_args;
use crate::shapes::same_signature;
use crate::types::{is_same, ty_under};
use cil_base::U32s;
use cil_model::{Impl, Program, Ty};
use std::alloc::{AllocError, Global};

#[tactic(auto, unfolding(cil_semantics::specs::Lookups::contract_exception))]
fn impls_in_set(program: &Program, k: u32) -> &[Impl]
    ensures { result.now ≡ (type_of program.now k).impls }
{
    match program.types.get(k as usize) {
        Some(desc) => desc.impls.as_slice(),
        None => &[],
    }
}

pub(crate) fn impls_of<'a>(program: &'a Program, ty: &Ty) -> &'a [Impl]
    ensures { result.now ≡ impls_of program.now ty.now }
{
    match definition_of(ty) {
        Some(k) => impls_in_set(program, k),
        None => &[],
    }
}

#[tactic(auto, unfolding(cil_semantics::specs::Lookups::contract_exception))]
fn methods_in_set(program: &Program, k: u32) -> &[u32]
    ensures { result.now ≡ (type_of program.now k).methods }
{
    match program.types.get(k as usize) {
        Some(desc) => desc.methods.as_slice(),
        None => &[],
    }
}

pub(crate) fn methods_of<'a>(program: &'a Program, ty: &Ty) -> &'a [u32]
    ensures { result.now ≡ methods_of program.now ty.now }
{
    match definition_of(ty) {
        Some(k) => methods_in_set(program, k),
        None => &[],
    }
}

/// Whether a row of a type counts (ECMA-335, II.22.27).
#[tactic(auto, unfolding(cil_semantics::specs::Dispatch::row_counts, cil_semantics::specs::Dispatch::owner_args, cil_semantics::specs::Lookups::no_method))]
pub(crate) fn row_counts(
    alloc: Global,
    program: &Program,
    ty: &Ty,
    links: &[Ty],
    row: &Impl,
) -> Result<bool, AllocError>
    requires { links.now ≡ chain program.now ty.now }
    ensures { IfOk result (λ is. is ≡ row_counts program.now ty.now row.now) }
{
    let Some(body) = program.methods.get(row.body as usize) else {
        return Ok(true);
    };
    let Some(declaration) = program.methods.get(row.declaration as usize) else {
        return Ok(true);
    };
    if body.outside || declaration.outside {
        return Ok(true);
    }
    if body.generics != declaration.generics {
        return Ok(false);
    }
    let owner = ty_under(alloc, &row.owner, args_of(ty), &[])?;
    same_signature(
        alloc,
        body,
        owner_args(program, links, row.body),
        declaration,
        args_of(&owner),
    )
}

fn is_owner(alloc: Global, ty: &Ty, row: &Impl, owner: &Ty) -> Result<bool, AllocError>
    ensures { IfOk result (λ is. is ≡ same_ty (under (args_of ty.now) [] row.now.owner) owner.now) }
{
    let stated = ty_under(alloc, &row.owner, args_of(ty), &[])?;
    Ok(is_same(&stated, owner))
}

/// Whether a row of a type names a body for a method of an instance.
#[tactic(auto, unfolding(cil_semantics::specs::Dispatch::row_names))]
fn row_names(
    alloc: Global,
    program: &Program,
    ty: &Ty,
    links: &[Ty],
    owner: &Ty,
    method: u32,
    row: &Impl,
) -> Result<bool, AllocError>
    requires { links.now ≡ chain program.now ty.now }
    ensures { IfOk result (λ is. is ≡ row_names program.now ty.now (owner.now, method) row.now) }
{
    if row.declaration != method || !is_owner(alloc, ty, row, owner)? {
        return Ok(false);
    }
    row_counts(alloc, program, ty, links, row)
}

/// The methods that rows of a type name for a method of an instance.
#[tactic(auto, unfolding(cil_semantics::specs::Dispatch::by_rows))]
pub(crate) fn by_rows(
    alloc: Global,
    program: &Program,
    ty: &Ty,
    links: &[Ty],
    owner: &Ty,
    method: u32,
) -> Result<U32s, AllocError>
    requires { links.now ≡ chain program.now ty.now }
    ensures { IfOk result (λ bodies. bodies ≡ by_rows program.now ty.now (owner.now, method)) }
{
    let mut bodies = U32s::new(alloc);
    for row in impls_of(program, ty) {
        if row_names(alloc, program, ty, links, owner, method, row)? {
            bodies.push(row.body)?;
        }
    }
    Ok(bodies)
}
