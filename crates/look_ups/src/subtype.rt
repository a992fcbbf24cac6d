// Of which types a closed type is a sub.
ghost use Rattle.std.specs.Prelude.{◌≡◌, ◌||◌, ◌++◌, Bool, true, option_to_list, IfOk, OnOk};
ghost use Rattle.cil_model.specs.declared.ty.Ty.{Ty};
ghost use Rattle.cil_semantics.specs.Lookups.{base_of, interfaces_of, is_sub};
ghost use Rattle.cil_semantics.specs.Types.{same_ty};
ghost use Rattle.cil_semantics.specs.Words.{any};
ghost use Rattle.look_ups.specs.Supers.{supers_of};

use crate::bases::{base_of, interfaces_of};
use crate::types::is_same;
use cil_model::{Program, Ty, Tys};
use std::alloc::{AllocError, Global};

#[cycle(equal)]
fn is_equal(a: &Ty, b: &Ty) -> bool
    ensures { result ≡ true → a.now ≡ b.now }
{
    match (a, b) {
        (Ty::Prim(x), Ty::Prim(y)) => *x == *y,
        (Ty::Known(x), Ty::Known(y)) => *x == *y,
        (Ty::Var(x), Ty::Var(y)) => *x == *y,
        (Ty::MVar(x), Ty::MVar(y)) => *x == *y,
        (Ty::Inst { ty: x, args: xs }, Ty::Inst { ty: y, args: ys }) => {
            *x == *y && are_equal(xs.as_slice(), ys.as_slice())
        }
        _ => false,
    }
}

#[cycle(equal)]
fn are_equal(a: &[Ty], b: &[Ty]) -> bool
    ensures { result ≡ true → a.now ≡ b.now }
{
    if a.len() != b.len() {
        return false;
    }
    for k in 0..a.len() {
        if !is_equal(&a[k], &b[k]) {
            return false;
        }
    }
    true
}

fn is_among(tys: &[Ty], ty: &Ty) -> bool
    ensures { (f : Ty → Bool) → result ≡ true → f ty.now ≡ true → any f tys.now ≡ true }
{
    for other in tys {
        if is_equal(other, ty) {
            return true;
        }
    }
    false
}

/// Adds a type that isn't there yet.
fn add_type(found: &mut Tys, ty: Ty) -> Result<(), AllocError>
    ensures { OnOk result ((f : Ty → Bool) → any f found.new ≡ (any f found.old || f ty)) }
{
    if is_among(found.as_slice(), &ty) {
        return Ok(());
    }
    found.push(ty)
}

fn add_types(found: &mut Tys, tys: Tys) -> Result<(), AllocError>
    ensures { OnOk result ((f : Ty → Bool) → any f found.new ≡ (any f found.old || any f tys)) }
{
    let mut left = tys;
    while let Some(ty) = left.pop() {
        add_type(found, ty)?;
    }
    Ok(())
}

/// Adds the base and the interfaces of a type.
fn add_supers(alloc: Global, program: &Program, found: &mut Tys, ty: &Ty) -> Result<(), AllocError>
    ensures { OnOk result ((f : Ty → Bool) → any f found.new ≡ (any f found.old || any f (supers_of program.now ty.now))) }
{
    if let Some(base) = base_of(alloc, program, ty)? {
        add_type(found, base)?;
    }
    let interfaces = interfaces_of(alloc, program, ty)?;
    add_types(found, interfaces)
}

/// What stands one step above some types.
fn all_supers(alloc: Global, program: &Program, tys: &[Ty]) -> Result<Tys, AllocError>
    ensures { IfOk result (λ found. (f : Ty → Bool) → any f found ≡ any (λ t. any f (supers_of program.now t)) tys.now) }
{
    let mut found = Tys::new(alloc);
    for ty in tys {
        add_supers(alloc, program, &mut found, ty)?;
    }
    Ok(found)
}

fn has_same(tys: &[Ty], ty: &Ty) -> bool
    ensures { result ≡ any (λ t. same_ty t ty.now) tys.now }
{
    for other in tys {
        if is_same(other, ty) {
            return true;
        }
    }
    false
}

/// Whether a closed type is a sub of another: the same, or above it by bases and interfaces
/// (ECMA-335, I.8.7).
pub fn is_subtype(alloc: Global, program: &Program, a: &Ty, b: &Ty) -> Result<bool, AllocError>
    ensures { IfOk result (λ is. is ≡ is_sub program.now a.now b.now) }
{
    let mut level = Tys::new(alloc);
    level.push(a.copied(alloc)?)?;
    for k in 0..program.types.as_slice().len() + 8 {
        if has_same(level.as_slice(), b) {
            return Ok(true);
        }
        if level.is_empty() {
            return Ok(false);
        }
        level = all_supers(alloc, program, level.as_slice())?;
    }
    Ok(has_same(level.as_slice(), b))
}
