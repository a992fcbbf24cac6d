// A type and its bases, each with its arguments (ECMA-335, II.22.37).
ghost use Rattle.std.specs.Prelude.{◌≡◌, option_and_then, IfOk};
ghost use Rattle.cil_model.specs.declared.ty.Ty.{out-Ty};
ghost use Rattle.cil_semantics.specs.Lookups.{in_set};
ghost use Rattle.member_table.specs.Environments.{environment_in, base_ty, base_under, is_of, seen_within};

use crate::types::coded_type;
use cil_base::tables::TYPE_DEF;
use cil_model::Ty;
use look_ups::ty_under;
use members::{AssemblyMembers, SetType};
use sqlite_items::at;
use std::alloc::{AllocError, Global};

/// The base of a type of the set.
fn base_type(
    alloc: Global,
    assemblies: &[AssemblyMembers<'_>],
    types: &[SetType],
    of: &SetType,
) -> Result<Option<Ty>, AllocError>
    ensures { IfOk result (λ t. t ≡ base_ty (environment_in assemblies.now types.now) of.now) }
{
    match at(assemblies, of.assembly as usize) {
        None => Ok(None),
        Some(assembly) => {
            let extends = assembly.rows.cell(TYPE_DEF, of.row, 3);
            coded_type(alloc, &assembly.coded, extends)
        }
    }
}

/// The base of an instance.
fn base_of_instance(
    alloc: Global,
    assemblies: &[AssemblyMembers<'_>],
    types: &[SetType],
    k: u32,
    args: &[Ty],
) -> Result<Option<Ty>, AllocError>
    ensures { IfOk result (λ t. t ≡ base_under (environment_in assemblies.now types.now) (k, args.now)) }
{
    let Some(of) = at(types, k as usize) else {
        return Ok(None);
    };
    match base_type(alloc, assemblies, types, of)? {
        None => Ok(None),
        Some(base) => Ok(Some(ty_under(alloc, &base, args, &[])?)),
    }
}

/// The base of a type of the set; None for any other.
fn base_of(
    alloc: Global,
    assemblies: &[AssemblyMembers<'_>],
    types: &[SetType],
    ty: &Ty,
) -> Result<Option<Ty>, AllocError>
    ensures { IfOk result (λ t. t ≡ option_and_then (base_under (environment_in assemblies.now types.now)) (in_set (out-Ty ty.now))) }
{
    match ty {
        Ty::Known(k) => base_of_instance(alloc, assemblies, types, *k, &[]),
        Ty::Inst { ty: k, args } => {
            base_of_instance(alloc, assemblies, types, *k, args.as_slice())
        }
        _ => Ok(None),
    }
}

fn is_of(ty: &Ty, k: u32) -> bool
    ensures { result ≡ is_of k (in_set (out-Ty ty.now)) }
{
    match ty {
        Ty::Known(d) => *d == k,
        Ty::Inst { ty: d, args: _ } => *d == k,
        _ => false,
    }
}

/// The nearest of a type and its bases, at most `n`, whose definition has the number `k`.
pub fn seen_within(
    alloc: Global,
    assemblies: &[AssemblyMembers<'_>],
    types: &[SetType],
    k: u32,
    n: usize,
    ty: &Ty,
) -> Result<Option<Ty>, AllocError>
    ensures { IfOk result (λ t. t ≡ seen_within (environment_in assemblies.now types.now) k n ty.now) }
{
    let mut here = ty.copied(alloc)?;
    for _i in 0..n {
        if is_of(&here, k) {
            return Ok(Some(here));
        }
        match base_of(alloc, assemblies, types, &here)? {
            None => return Ok(None),
            Some(base) => here = base,
        }
    }
    Ok(None)
}
