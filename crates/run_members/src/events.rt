// The member of the contract library to which failures are reported (Code Contracts User Manual, section 7.3).

ghost use Rattle.std.specs.Prelude.{◌≡◌, IfOk};
ghost use Rattle.cil_semantics.specs.Calls as calls;
ghost use Rattle.cil_semantics.specs.Core as core_types;
ghost use Rattle.cil_semantics.specs.Core.{event_name, helper_name};
ghost use Rattle.cil_semantics.specs.Lookups.{method_of};
ghost use Rattle.cil_semantics.specs.Types.{same_ty, same_tys};

use call_acts::{name_of_method, name_of_type};
use cil_base::Name;
use cil_model::{Program, Ty, Tys};
use look_ups::{are_same, is_same};
use run_methods::is_static_method;
use std::alloc::{AllocError, Global};

/// A class outside the set.
pub fn outside_class(alloc: Global, name: &[u8]) -> Result<Ty, AllocError>
    ensures { IfOk result (λ ty. ty ≡ core_types.class_named name.now) }
{
    Ok(Ty::Outside {
        name: Name::from_slice(alloc, name)?,
        value: false,
    })
}

/// The type of the kind of a failure.
pub fn kind_type(alloc: Global) -> Result<Ty, AllocError>
    ensures { IfOk result (λ ty. ty ≡ core_types.kind_ty) }
{
    let name = b"System.Diagnostics.Contracts.ContractFailureKind";
    Ok(Ty::Outside {
        name: Name::from_slice(alloc, name)?,
        value: true,
    })
}

/// The types of what a report is given: kind, message, label, and the exception that a failed clause was about.
pub fn event_params(alloc: Global) -> Result<Tys, AllocError>
    ensures { IfOk result (λ tys. tys ≡ core_types.event_params) }
{
    let mut tys = Tys::new(alloc);
    tys.push(kind_type(alloc)?)?;
    tys.push(Ty::Prim(0x0E))?;
    tys.push(Ty::Prim(0x0E))?;
    tys.push(outside_class(alloc, b"System.Exception")?)?;
    Ok(tys)
}

pub(crate) fn is_text_type(ty: &Ty) -> bool
    ensures { result ≡ same_ty ty.now core_types.string_ty }
{
    is_same(ty, &Ty::Prim(0x0E))
}

#[tactic(auto, unfolding(cil_semantics::specs::Lookups::no_method))]
fn gives_text(program: &Program, method: u32) -> bool
    ensures { result ≡ same_ty (method_of program.now method).result core_types.string_ty }
{
    match program.methods.get(method as usize) {
        Some(desc) => is_text_type(&desc.result),
        None => false,
    }
}

#[tactic(auto, unfolding(cil_semantics::specs::Lookups::no_method))]
pub(crate) fn params_of(program: &Program, method: u32) -> &[Ty]
    ensures { result.now ≡ (method_of program.now method).params }
{
    match program.methods.get(method as usize) {
        Some(desc) => desc.params.as_slice(),
        None => &[],
    }
}

fn takes_event(alloc: Global, program: &Program, method: u32) -> Result<bool, AllocError>
    ensures { IfOk result (λ takes. takes ≡ same_tys (method_of program.now method).params core_types.event_params) }
{
    let tys = event_params(alloc)?;
    Ok(are_same(params_of(program, method), tys.as_slice()))
}

fn is_helper(name: &[u8]) -> bool
    ensures { result ≡ calls.is_named name.now helper_name }
{
    name == b"System.Runtime.CompilerServices.ContractHelper".as_slice()
}

fn is_raise(name: &[u8]) -> bool
    ensures { result ≡ calls.is_named name.now event_name }
{
    name == b"RaiseContractFailedEvent".as_slice()
}

/// Whether it is the member that a failure is reported to, by its signature too.
pub(crate) fn is_event(
    alloc: Global,
    program: &Program,
    owner: &Ty,
    method: u32,
) -> Result<bool, AllocError>
    ensures { IfOk result (λ is. is ≡ calls.is_event program.now owner.now method) }
{
    if !is_helper(name_of_type(program, owner)) || !is_raise(name_of_method(program, method)) {
        return Ok(false);
    }
    if !is_static_method(program, method) || !gives_text(program, method) {
        return Ok(false);
    }
    let takes = takes_event(alloc, program, method)?;
    Ok(takes)
}
