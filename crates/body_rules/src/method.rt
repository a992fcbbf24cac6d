// The body of one method, with all rules on it.
ghost use Rattle.std.specs.Prelude.{◌≡◌, ◌<◌, ◌^◌, length, IfOk, IfSome, OnOk};
ghost use Rattle.cil_base.specs.Refusals.{NoneBroken, OnRefused};
ghost use Rattle.cil_base.specs.declared.refusal.Refusal.{Refusal};
ghost use Rattle.cil_model.specs.ValidBody.{IsValid};
ghost use Rattle.method_bodies.specs.Bodies.{IsBodyAt};
ghost use Rattle.method_bodies.specs.Plain.{IsPlain};
ghost use Rattle.method_bodies.specs.Rows.{method_place, rva_of};
ghost use Rattle.body_rules.specs.Faults.{IsSound, MethodFault};

use crate::code::body_fault;
use crate::reading::read_method;
use cil_base::tables::METHOD_DEF;
use cil_base::{Fault, Place};
use cil_model::{Body, MethodDesc, Program};
use pe_image::Image;
use set_rows::Rows;
use std::alloc::Global;

/// The place of the method of a MethodDef row.
fn method_place(a: u32, row: u32) -> Place
    ensures { result ≡ method_place a row }
{
    Place {
        assembly: a,
        table: METHOD_DEF,
        row,
    }
}

/// The body of the method of a MethodDef row of assembly number `a`, or that it has none, where `own`
/// describes it. The refusal is what it breaks first: I5, I1 and I2, I3, I6, I4, then X1 to X4.
pub fn checked_body(
    alloc: Global,
    image: &Image<'_>,
    rows: &Rows<'_>,
    program: &Program,
    own: &MethodDesc,
    a: u32,
    row: u32,
) -> Result<Option<Body>, Fault>
    requires { length image.now.bytes < 2 ^ 32 }
    ensures body { IfOk result (IsBodyAt image.now.bytes a (rva_of rows.now row)) }
    ensures valid { IfOk result (λ read. IfSome read (IsValid a)) }
    ensures plain { IfOk result (λ read. IfSome read IsPlain) }
    ensures sound { IfOk result (IsSound program.now own.now (method_place a row)) }
    ensures accepted { OnOk result (NoneBroken (MethodFault image.now.bytes (method_place a row) (rva_of rows.now row) program.now own.now)) }
    ensures broken { OnRefused result (MethodFault image.now.bytes (method_place a row) (rva_of rows.now row) program.now own.now) }
    // It is the only one.
    ensures only { OnRefused result (λ r. (s : Refusal) → MethodFault image.now.bytes (method_place a row) (rva_of rows.now row) program.now own.now s → s ≡ r) }
{
    let body = match read_method(alloc, image, rows, a, row) {
        Ok(body) => body,
        Err(fault) => return Err(fault),
    };
    match body_fault(alloc, program, own, &body, method_place(a, row)) {
        Ok(None) => return Ok(body),
        Ok(Some(refusal)) => return Err(Fault::Refused(refusal)),
        Err(e) => return Err(Fault::Memory(e)),
    }
}
