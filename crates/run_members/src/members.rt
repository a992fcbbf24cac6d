// How a method is told of where it is called outside (ECMA-335, I.12.4.1 and II.22.25).

ghost use Rattle.std.specs.Prelude.{◌≡◌, [], slice_get, IfOk};
ghost use Rattle.cil_semantics.specs.Calls.{with_default, without_this};
ghost use Rattle.cil_semantics.specs.Outside.{member_of};
ghost use Rattle.run_outside.specs.Asking.{as_member};

use crate::events::is_event;
use call_acts::{copied_tys, member_name, name_of_method, name_of_type};
use cil_model::{Program, Ty, Tys, Value};
use run_frames::param_types;
use run_methods::result_under;
use run_outside::{Member, default_reply};
use run_values::copied_value;
use std::alloc::{AllocError, Global};

/// A member of the program, as seen in a closed type and under arguments of its own.
pub fn member_of(
    alloc: Global,
    program: &Program,
    owner: &Ty,
    method: u32,
    args: &[Ty],
) -> Result<Member, AllocError>
    ensures { IfOk result (λ m. as_member m ≡ member_of program.now owner.now method args.now) }
{
    let name = name_of_method(program, method);
    let name = member_name(alloc, name_of_type(program, owner), name)?;
    let params = param_types(alloc, program, owner, method, args)?;
    let result = result_under(alloc, program, owner, method, args)?;
    let default = default_reply(alloc, program, &result)?;
    Ok(Member {
        number: method,
        name,
        params,
        result,
        default,
    })
}

fn copied_at(alloc: Global, values: &[Value], place: usize) -> Result<Option<Value>, AllocError>
    ensures { IfOk result (λ v. v ≡ slice_get values.now place) }
{
    match values.get(place) {
        None => Ok(None),
        Some(v) => Ok(Some(copied_value(alloc, v)?)),
    }
}

/// A member as it is called outside with these values: the one to which failures are reported gives its third argument where a reply says
/// nothing.
pub fn member_called(
    alloc: Global,
    program: &Program,
    owner: &Ty,
    method: u32,
    args: &[Ty],
    values: &[Value],
) -> Result<Member, AllocError>
    ensures { IfOk result (λ m. as_member m ≡ with_default program.now owner.now method values.now (member_of program.now owner.now method args.now)) }
{
    let mut member = member_of(alloc, program, owner, method, args)?;
    if is_event(alloc, program, owner, method)? {
        member.default = copied_at(alloc, values, 2)?;
    }
    Ok(member)
}

fn params_without_this(alloc: Global, params: &[Ty]) -> Result<Tys, AllocError>
    ensures { IfOk result (λ tys. tys ≡ without_this params.now) }
{
    if params.is_empty() {
        return Ok(Tys::new(alloc));
    }
    let tys = copied_tys(alloc, &params[1..])?;
    Ok(tys)
}

/// A constructor as it is called outside: its parameters have no `this`.
pub fn member_made(
    alloc: Global,
    program: &Program,
    owner: &Ty,
    method: u32,
) -> Result<Member, AllocError>
    ensures { IfOk result (λ m. as_member m ≡ record (member_of program.now owner.now method []) { params = without_this (member_of program.now owner.now method []).params }) }
{
    let mut member = member_of(alloc, program, owner, method, &[])?;
    member.params = params_without_this(alloc, member.params.as_slice())?;
    Ok(member)
}
