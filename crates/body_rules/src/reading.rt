// The body of a method as it is read.
ghost use Rattle.std.specs.Prelude.{◌≡◌, ◌<◌, ◌^◌, length, option_map, IfOk, IfSome, OnOk};
ghost use Rattle.cil_base.specs.Refusals.{First, NoneBroken, OnRefused};
ghost use Rattle.cil_model.specs.ValidBody.{IsSmallToken, IsValid};
ghost use Rattle.method_bodies.specs.Bodies.{FaultAt};
ghost use Rattle.method_bodies.specs.Rows.{method_place, rva_of};
ghost use Rattle.body_rules.specs.Faults.{IsRead, plain};

use crate::locals::tell_locals;
use cil_base::Fault;
use cil_model::Body;
use method_bodies::method_body;
use pe_image::Image;
use set_rows::Rows;
use std::alloc::Global;

/// The same body, where a locals token of 0 says that there are none.
fn plain_body(mut body: Option<Body>) -> Option<Body>
    requires { IfSome body (λ b. IfSome b.locals IsSmallToken) }
    ensures { result ≡ option_map plain body }
{
    if let Some(body) = &mut body {
        tell_locals(body);
    }
    body
}

/// The body of the method of a MethodDef row of assembly number `a`, or that it has none.
pub fn read_method(
    alloc: Global,
    image: &Image<'_>,
    rows: &Rows<'_>,
    a: u32,
    row: u32,
) -> Result<Option<Body>, Fault>
    requires { length image.now.bytes < 2 ^ 32 }
    ensures read { IfOk result (IsRead image.now.bytes a (rva_of rows.now row)) }
    ensures valid { IfOk result (λ read. IfSome read (IsValid a)) }
    ensures few { IfOk result (λ read. IfSome read (λ b. length b.instrs < 2 ^ 32)) }
    ensures accepted { OnOk result (NoneBroken (FaultAt image.now.bytes (method_place a row) (rva_of rows.now row))) }
    ensures refused { OnRefused result (First (FaultAt image.now.bytes (method_place a row) (rva_of rows.now row))) }
{
    match method_body(alloc, image, rows, a, row) {
        Ok(body) => Ok(plain_body(body)),
        Err(fault) => Err(fault),
    }
}
