// The base and the interfaces of a closed type.
ghost use Rattle.std.specs.Prelude.{◌≡◌, ◌++◌, slice_get, option_map, option_to_list, IfOk, ℕ, List, []};
ghost use Rattle.std.specs.Option.{option_copied};
ghost use Rattle.cil_model.specs.declared.ty.Ty.{Ty, out-Ty};
ghost use Rattle.cil_semantics.specs.Core.{object_ty};
ghost use Rattle.cil_semantics.specs.Lookups.{args_of, base_of, in_set, interfaces_of, type_of};
ghost use Rattle.cil_semantics.specs.Types.{all_under, under};
ghost use Rattle.cil_semantics.specs.Words.{maybe};

use crate::built_in::{built_in_base, class_named};
use crate::types::{all_under, ty_under};
use cil_model::{Program, Ty, Tys};
use std::alloc::{AllocError, Global};

/// The number of the definition of a type of the set.
pub fn definition_of(ty: &Ty) -> Option<u32>
    ensures { result ≡ option_map (λ (d : ℕ × List Ty). d.0) (in_set (out-Ty ty.now)) }
{
    match ty {
        Ty::Known(k) => Some(*k),
        Ty::Inst { ty, .. } => Some(*ty),
        _ => None,
    }
}

/// The arguments of an instance; no other type has any.
pub fn args_of(ty: &Ty) -> &[Ty]
    ensures { result.now ≡ args_of ty.now }
{
    match ty {
        Ty::Inst { args, .. } => args.as_slice(),
        _ => &[],
    }
}

#[tactic(auto, unfolding(cil_semantics::specs::Lookups::contract_exception))]
fn base_in_set(alloc: Global, program: &Program, k: u32, args: &[Ty]) -> Result<Ty, AllocError>
    ensures { IfOk result (λ ty. ty ≡ maybe object_ty (under args.now []) (type_of program.now k).base) }
{
    match program.types.get(k as usize) {
        Some(desc) => match &desc.base {
            Some(base) => ty_under(alloc, base, args, &[]),
            None => Ok(Ty::Prim(0x1C)),
        },
        None => class_named(alloc, b"System.Exception"),
    }
}

/// The base of a closed type (ECMA-335, II.10.1.3). System.Object alone has none.
#[tactic(auto, unfolding(cil_semantics::specs::Lookups::base_of))]
pub fn base_of(alloc: Global, program: &Program, ty: &Ty) -> Result<Option<Ty>, AllocError>
    ensures { IfOk result (λ base. base ≡ base_of program.now ty.now) }
{
    match ty {
        Ty::Known(k) => Ok(Some(base_in_set(alloc, program, *k, &[])?)),
        Ty::Inst { ty, args } => Ok(Some(base_in_set(alloc, program, *ty, args.as_slice())?)),
        _ => built_in_base(alloc, ty),
    }
}

#[tactic(auto, unfolding(cil_semantics::specs::Lookups::contract_exception))]
fn interfaces_in_set(
    alloc: Global,
    program: &Program,
    k: u32,
    args: &[Ty],
) -> Result<Tys, AllocError>
    ensures { IfOk result (λ tys. tys ≡ all_under args.now [] (type_of program.now k).interfaces) }
{
    match program.types.get(k as usize) {
        Some(desc) => all_under(alloc, desc.interfaces.as_slice(), args, &[]),
        None => Ok(Tys::new(alloc)),
    }
}

/// The interfaces that a closed type names itself (ECMA-335, II.12.2).
#[tactic(auto, unfolding(cil_semantics::specs::Lookups::interfaces_of))]
pub fn interfaces_of(alloc: Global, program: &Program, ty: &Ty) -> Result<Tys, AllocError>
    ensures { IfOk result (λ tys. tys ≡ interfaces_of program.now ty.now) }
{
    match ty {
        Ty::Known(k) => interfaces_in_set(alloc, program, *k, &[]),
        Ty::Inst { ty, args } => interfaces_in_set(alloc, program, *ty, args.as_slice()),
        _ => Ok(Tys::new(alloc)),
    }
}
