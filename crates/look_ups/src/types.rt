// Types as values: whether two are the same, and what stands for their parameters.
ghost use Rattle.std.specs.Prelude.{◌≡◌, get_or, IfOk};
ghost use Rattle.cil_model.specs.declared.ty.Ty.{out-Ty};
ghost use Rattle.cil_semantics.specs.Types.{is_array, is_by_ref, is_inst, is_known, is_mvar, is_opaque, is_outside, is_prim, is_var, same_ty, same_tys, under, all_under, has_parameter};
ghost use Rattle.cil_semantics.specs.Words.{any};

use cil_base::Bytes;
use cil_model::{Ty, Tys};
use sqlite_items::{Boxed, at};
use std::alloc::{AllocError, Global};

fn is_prim(code: u8, ty: &Ty) -> bool
    ensures { result ≡ is_prim code (out-Ty ty.now) }
{
    matches!(ty, Ty::Prim(other) if *other == code)
}

fn is_outside(name: &[u8], ty: &Ty) -> bool
    ensures { result ≡ is_outside name.now (out-Ty ty.now) }
{
    match ty {
        Ty::Outside { name: other, .. } => name == other.as_slice(),
        _ => false,
    }
}

fn is_known(k: u32, ty: &Ty) -> bool
    ensures { result ≡ is_known k (out-Ty ty.now) }
{
    match ty {
        Ty::Known(other) => k == *other,
        _ => false,
    }
}

fn is_var(k: u32, ty: &Ty) -> bool
    ensures { result ≡ is_var k (out-Ty ty.now) }
{
    match ty {
        Ty::Var(other) => k == *other,
        _ => false,
    }
}

fn is_mvar(k: u32, ty: &Ty) -> bool
    ensures { result ≡ is_mvar k (out-Ty ty.now) }
{
    match ty {
        Ty::MVar(other) => k == *other,
        _ => false,
    }
}

fn is_opaque(ty: &Ty) -> bool
    ensures { result ≡ is_opaque (out-Ty ty.now) }
{
    matches!(ty, Ty::Opaque)
}

#[cycle(same)]
fn is_array_of(item: &Ty, ty: &Ty) -> bool
    ensures { result ≡ is_array (same_ty item.now) (out-Ty ty.now) }
{
    match ty {
        Ty::Array(other) => is_same(item, other.get()),
        _ => false,
    }
}

#[cycle(same)]
fn is_reference_to(item: &Ty, ty: &Ty) -> bool
    ensures { result ≡ is_by_ref (same_ty item.now) (out-Ty ty.now) }
{
    match ty {
        Ty::ByRef(other) => is_same(item, other.get()),
        _ => false,
    }
}

#[cycle(same)]
fn is_instance(k: u32, args: &[Ty], ty: &Ty) -> bool
    ensures { result ≡ is_inst k (same_tys args.now) (out-Ty ty.now) }
{
    match ty {
        Ty::Inst { ty, args: others } => k == *ty && are_same(args, others.as_slice()),
        _ => false,
    }
}

/// Whether two types are the same.
#[cycle(same)]
pub fn is_same(a: &Ty, b: &Ty) -> bool
    ensures { result ≡ same_ty a.now b.now }
{
    match a {
        Ty::Prim(code) => is_prim(*code, b),
        Ty::Known(k) => is_known(*k, b),
        Ty::Outside { name, .. } => is_outside(name.as_slice(), b),
        Ty::Array(item) => is_array_of(item.get(), b),
        Ty::ByRef(item) => is_reference_to(item.get(), b),
        Ty::Var(k) => is_var(*k, b),
        Ty::MVar(k) => is_mvar(*k, b),
        Ty::Opaque => is_opaque(b),
        Ty::Inst { ty, args } => is_instance(*ty, args.as_slice(), b),
    }
}

/// Whether two lists have the same types, one by one.
#[cycle(same)]
pub fn are_same(a: &[Ty], b: &[Ty]) -> bool
    ensures { result ≡ same_tys a.now b.now }
{
    if a.len() != b.len() {
        return false;
    }
    for k in 0..a.len() {
        if !is_same(&a[k], &b[k]) {
            return false;
        }
    }
    true
}

/// The type that stands for a parameter, or else the parameter.
fn argument_or(alloc: Global, args: &[Ty], k: u32, parameter: Ty) -> Result<Ty, AllocError>
    ensures { IfOk result (λ ty. ty ≡ get_or args.now k parameter) }
{
    match at(args, k as usize) {
        Some(ty) => ty.copied(alloc),
        None => Ok(parameter),
    }
}

/// The type where these stand for the parameters of its type and of its method.
#[cycle(under)]
pub fn ty_under(
    alloc: Global,
    ty: &Ty,
    type_args: &[Ty],
    method_args: &[Ty],
) -> Result<Ty, AllocError>
    ensures { IfOk result (λ it. it ≡ under type_args.now method_args.now ty.now) }
{
    match ty {
        Ty::Prim(b) => Ok(Ty::Prim(*b)),
        Ty::Known(k) => Ok(Ty::Known(*k)),
        Ty::Outside { name, value } => Ok(Ty::Outside {
            name: Bytes::from_slice(alloc, name.as_slice())?,
            value: *value,
        }),
        Ty::Array(item) => Ok(Ty::Array(Boxed::new(
            alloc,
            ty_under(alloc, item.get(), type_args, method_args)?,
        )?)),
        Ty::ByRef(item) => Ok(Ty::ByRef(Boxed::new(
            alloc,
            ty_under(alloc, item.get(), type_args, method_args)?,
        )?)),
        Ty::Var(k) => argument_or(alloc, type_args, *k, Ty::Var(*k)),
        Ty::MVar(k) => argument_or(alloc, method_args, *k, Ty::MVar(*k)),
        Ty::Opaque => Ok(Ty::Opaque),
        Ty::Inst { ty, args } => Ok(Ty::Inst {
            ty: *ty,
            args: all_under(alloc, args.as_slice(), type_args, method_args)?,
        }),
    }
}

/// Each of the types where these stand for parameters.
#[cycle(under)]
pub fn all_under(
    alloc: Global,
    tys: &[Ty],
    type_args: &[Ty],
    method_args: &[Ty],
) -> Result<Tys, AllocError>
    ensures { IfOk result (λ it. it ≡ all_under type_args.now method_args.now tys.now) }
{
    let mut found = Tys::new(alloc);
    for ty in tys {
        found.push(ty_under(alloc, ty, type_args, method_args)?)?;
    }
    Ok(found)
}

/// Whether the type is or holds a parameter of its type.
#[cycle(parameter)]
pub fn has_parameter(ty: &Ty) -> bool
    ensures { result ≡ has_parameter ty.now }
{
    match ty {
        Ty::Array(item) => has_parameter(item.get()),
        Ty::ByRef(item) => has_parameter(item.get()),
        Ty::Var(_) => true,
        Ty::Inst { args, .. } => have_parameter(args.as_slice()),
        _ => false,
    }
}

/// Whether one of the types is or holds a parameter of its type.
#[cycle(parameter)]
pub fn have_parameter(tys: &[Ty]) -> bool
    ensures { result ≡ any has_parameter tys.now }
{
    for ty in tys {
        if has_parameter(ty) {
            return true;
        }
    }
    false
}
