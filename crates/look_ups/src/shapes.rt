// The names and signatures of methods.
ghost use Rattle.std.specs.Prelude.{◌≡◌, ◌==◌, ◌&&◌, ◌%◌, [], bytes_eq, IfOk};
ghost use Rattle.cil_semantics.specs.Dispatch.{is_public, is_virtual, names_parameter, same_signature, takes_new_slot};
ghost use Rattle.cil_semantics.specs.Lookups.{method_of, no_method};
ghost use Rattle.cil_semantics.specs.Types.{all_under, same_ty, same_tys, under};

use crate::types::{all_under, are_same, has_parameter, have_parameter, is_same, ty_under};
use cil_base::Name;
use cil_model::{MethodDesc, Program, Ty, Tys};
use std::alloc::{AllocError, Global};

/// The flag of a virtual method (ECMA-335, II.23.1.10).
pub(crate) fn is_virtual(method: &MethodDesc) -> bool
    ensures { result ≡ is_virtual method.now }
{
    method.flags / 0x40 % 2 == 1
}

pub(crate) fn takes_new_slot(method: &MethodDesc) -> bool
    ensures { result ≡ takes_new_slot method.now }
{
    method.flags / 0x100 % 2 == 1
}

pub(crate) fn is_public(method: &MethodDesc) -> bool
    ensures { result ≡ is_public method.now }
{
    method.flags % 8 == 6
}

fn names_parameter(method: &MethodDesc) -> bool
    ensures { result ≡ names_parameter method.now }
{
    have_parameter(method.params.as_slice()) || has_parameter(&method.result)
}

fn is_same_under(alloc: Global, x: &Ty, a: &[Ty], y: &Ty, b: &[Ty]) -> Result<bool, AllocError>
    ensures { IfOk result (λ is. is ≡ same_ty (under a.now [] x.now) (under b.now [] y.now)) }
{
    let left = ty_under(alloc, x, a, &[])?;
    let right = ty_under(alloc, y, b, &[])?;
    Ok(is_same(&left, &right))
}

fn are_same_under(
    alloc: Global,
    xs: &[Ty],
    a: &[Ty],
    ys: &[Ty],
    b: &[Ty],
) -> Result<bool, AllocError>
    ensures { IfOk result (λ is. is ≡ same_tys (all_under a.now [] xs.now) (all_under b.now [] ys.now)) }
{
    let left = all_under(alloc, xs, a, &[])?;
    let right = all_under(alloc, ys, b, &[])?;
    Ok(are_same(left.as_slice(), right.as_slice()))
}

/// Whether two methods have one signature, each with the arguments of its type (ECMA-335, II.9.8).
#[tactic(auto, unfolding(cil_semantics::specs::Dispatch::same_signature))]
pub(crate) fn same_signature(
    alloc: Global,
    d: &MethodDesc,
    a: &[Ty],
    e: &MethodDesc,
    b: &[Ty],
) -> Result<bool, AllocError>
    ensures { IfOk result (λ is. is ≡ same_signature d.now a.now e.now b.now) }
{
    if !names_parameter(d) && !names_parameter(e) {
        return Ok(d.sig == e.sig);
    }
    if d.is_static != e.is_static
        || !are_same_under(alloc, d.params.as_slice(), a, e.params.as_slice(), b)?
    {
        return Ok(false);
    }
    is_same_under(alloc, &d.result, a, &e.result, b)
}

/// Whether two methods have the same name, number of own parameters and signature.
pub(crate) fn same_shape(
    alloc: Global,
    d: &MethodDesc,
    a: &[Ty],
    e: &MethodDesc,
    b: &[Ty],
) -> Result<bool, AllocError>
    ensures { IfOk result (λ is. is ≡ (bytes_eq d.now.name e.now.name && ((d.now.generics == e.now.generics) && same_signature d.now a.now e.now b.now))) }
{
    if d.name.as_slice() != e.name.as_slice() || d.generics != e.generics {
        return Ok(false);
    }
    same_signature(alloc, d, a, e, b)
}

/// What stands for each number past the methods of a program.
#[tactic(auto, unfolding(cil_semantics::specs::Lookups::no_method))]
fn no_method(alloc: Global) -> MethodDesc
    ensures { result ≡ no_method }
{
    MethodDesc {
        assembly: 0,
        row: 0,
        owner: 0,
        name: Name::new(alloc),
        params: Tys::new(alloc),
        result: Ty::Prim(0x01),
        sig: 0,
        is_static: true,
        flags: 0,
        outside: true,
        abbreviator: false,
        invariant: false,
        generated: false,
        body: None,
        generics: 0,
    }
}

/// The same, of a method by its number.
pub(crate) fn has_shape_of(
    alloc: Global,
    program: &Program,
    d: &MethodDesc,
    a: &[Ty],
    method: u32,
    b: &[Ty],
) -> Result<bool, AllocError>
    ensures { let e = method_of program.now method in IfOk result (λ is. is ≡ (bytes_eq d.now.name e.name && ((d.now.generics == e.generics) && same_signature d.now a.now e b.now))) }
{
    match program.methods.get(method as usize) {
        Some(e) => same_shape(alloc, d, a, e, b),
        None => same_shape(alloc, d, a, &no_method(alloc), b),
    }
}
