// What the result of a reply comes to (ECMA-335, I.12.4.2 and II.14.3).

ghost use Rattle.std.specs.Prelude.{◌≡◌, codes, IfOk};
ghost use Rattle.cil_semantics.specs.Core as core_types;
ghost use Rattle.run_outside.specs.Asking as asking;
ghost use Rattle.run_outside.specs.Asking.{as_member};

use crate::defaults::is_nothing;
use crate::fitting::fits;
use crate::member::Member;
use cil_base::Name;
use cil_model::{Program, ReplyResult, Ty, Value};
use cil_semantics::World;
use look_ups::is_subtype;
use run_values::{copied_value, storage_of, stored_by_type};
use std::alloc::{AllocError, Global};

/// What the result of a reply comes to.
#[derive(Drop)]
pub(crate) enum Judged {
    Gives(Option<Value>),
    Throws(Name),
    FitsNot,
}

fn class_named(alloc: Global, name: &[u8]) -> Result<Ty, AllocError>
    ensures { IfOk result (λ ty. ty ≡ core_types.class_named name.now) }
{
    Ok(Ty::Outside {
        name: Name::from_slice(alloc, name)?,
        value: false,
    })
}

fn exception_type(alloc: Global) -> Result<Ty, AllocError>
    ensures { IfOk result (λ ty. ty ≡ core_types.class_named (codes "System.Exception")) }
{
    class_named(alloc, b"System.Exception")
}

fn is_exception(alloc: Global, program: &Program, name: &[u8]) -> Result<bool, AllocError>
    ensures { IfOk result (λ is. is ≡ asking.is_exception program.now name.now) }
{
    let ty = class_named(alloc, name)?;
    let exception = exception_type(alloc)?;
    let is = is_subtype(alloc, program, &ty, &exception)?;
    Ok(is)
}

pub(crate) fn judged_throw(
    alloc: Global,
    program: &Program,
    name: &Name,
) -> Result<Judged, AllocError>
    ensures { IfOk result (λ it. it ≡ asking.judged_throw program.now name.now) }
{
    if !is_exception(alloc, program, name.as_slice())? {
        return Ok(Judged::FitsNot);
    }
    Ok(Judged::Throws(Name::from_slice(alloc, name.as_slice())?))
}

fn judged_void(program: &Program, ty: &Ty) -> Judged
    ensures { result ≡ asking.judged_void program.now ty.now }
{
    if is_nothing(storage_of(program, ty)) {
        Judged::Gives(None)
    } else {
        Judged::FitsNot
    }
}

fn judged_value(
    alloc: Global,
    program: &Program,
    world: &World,
    ty: &Ty,
    v: &Value,
) -> Result<Judged, AllocError>
    ensures { IfOk result (λ it. it ≡ asking.judged_given program.now world.now ty.now v.now) }
{
    if !fits(alloc, program, world, ty, v)? {
        return Ok(Judged::FitsNot);
    }
    let copy = copied_value(alloc, v)?;
    match stored_by_type(alloc, program, ty, copy)? {
        None => Ok(Judged::FitsNot),
        Some(stored) => Ok(Judged::Gives(Some(stored))),
    }
}

pub(crate) fn copied_option(alloc: Global, v: &Option<Value>) -> Result<Option<Value>, AllocError>
    ensures { IfOk result (λ copy. copy ≡ v.now) }
{
    match v {
        None => Ok(None),
        Some(v) => Ok(Some(copied_value(alloc, v)?)),
    }
}

/// What the result of a reply comes to, once its by-reference values are stored.
pub(crate) fn judgement(
    alloc: Global,
    program: &Program,
    member: &Member,
    world: &World,
    reply: &ReplyResult,
) -> Result<Judged, AllocError>
    ensures { IfOk result (λ it. it ≡ asking.judged program.now (as_member member.now) world.now reply.now) }
{
    match reply {
        ReplyResult::Default => Ok(Judged::Gives(copied_option(alloc, &member.default)?)),
        ReplyResult::Void => Ok(judged_void(program, &member.result)),
        ReplyResult::Given(v) => judged_value(alloc, program, world, &member.result, v),
        ReplyResult::Throw(name) => judged_throw(alloc, program, name),
    }
}
