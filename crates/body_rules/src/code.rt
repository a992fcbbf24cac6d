// What the code of a body breaks first.
ghost use Rattle.std.specs.Prelude.{◌<◌, ◌^◌, length, IfOk, IfSome};
ghost use Rattle.body_rules.specs.Faults.{TellsFault, TellsFaultOf, TellsFlow};

use cil_base::{Fault, Place, Refusal};
use cil_model::{Body, MethodDesc, Program};
use il_flow::heights_of;
use region_tree::control_fault;
use std::alloc::{AllocError, Global};

/// The first of I6, and where none of it is broken I4.
fn flow_fault(
    alloc: Global,
    program: &Program,
    own: &MethodDesc,
    body: &Body,
    place: Place,
) -> Result<Option<Refusal>, AllocError>
    requires { length body.now.instrs < 2 ^ 32 }
    ensures { IfOk result (TellsFlow program.now own.now place body.now) }
{
    match heights_of(alloc, program, own, body, place) {
        Ok(_) => return Ok(None),
        Err(Fault::Refused(refusal)) => return Ok(Some(refusal)),
        Err(Fault::Memory(e)) => return Err(e),
    }
}

/// The first of I6, I4 and X1 to X4.
fn code_fault(
    alloc: Global,
    program: &Program,
    own: &MethodDesc,
    body: &Body,
    place: Place,
) -> Result<Option<Refusal>, AllocError>
    requires { length body.now.instrs < 2 ^ 32 }
    ensures { IfOk result (TellsFault program.now own.now place body.now) }
{
    match flow_fault(alloc, program, own, body, place) {
        Ok(Some(refusal)) => return Ok(Some(refusal)),
        Ok(None) => return control_fault(alloc, body, place),
        Err(e) => return Err(e),
    }
}

/// The same of a body that may be missing.
pub fn body_fault(
    alloc: Global,
    program: &Program,
    own: &MethodDesc,
    body: &Option<Body>,
    place: Place,
) -> Result<Option<Refusal>, AllocError>
    requires { IfSome body.now (λ b. length b.instrs < 2 ^ 32) }
    ensures { IfOk result (TellsFaultOf program.now own.now place body.now) }
{
    match body {
        Some(body) => code_fault(alloc, program, own, body, place),
        None => Ok(None),
    }
}
