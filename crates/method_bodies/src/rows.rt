// The bodies of the methods of an assembly.
ghost use Rattle.std.specs.Prelude.{ℕ, Option, ◌≡◌, ◌<◌, ◌^◌, ◌++◌, ◌∷◌, [], length, IfOk, IfSome, OnOk};
ghost use Rattle.cil_base.specs.Refusals.{First, NoneBroken, OnRefused};
ghost use Rattle.cil_base.specs.declared.refusal.Refusal.{Refusal};
ghost use Rattle.cil_model.specs.ValidBody.{IsValid};
ghost use Rattle.cil_model.specs.declared.body.Body.{Body};
ghost use Rattle.set_rows.specs.Sets.{Assemblies, assembly_at};
ghost use Rattle.method_bodies.specs.Bodies.{FaultAt, IsBodyAt};
ghost use Rattle.method_bodies.specs.Rows.{AreBodies, HasCode, RowFault, code_in, method_place, rva_of};

use crate::at_rva::read_body;
use cil_base::tables::METHOD_DEF;
use cil_base::{Fault, Place};
use cil_model::Body;
use pe_image::Image;
use set_rows::Rows;
use std::alloc::{AllocError, Global};

/// The body of the method of a MethodDef row of assembly number `a`, or that it has none.
pub fn method_body(
    alloc: Global,
    image: &Image<'_>,
    rows: &Rows<'_>,
    a: u32,
    row: u32,
) -> Result<Option<Body>, Fault>
    requires { length image.now.bytes < 2 ^ 32 }
    ensures body { IfOk result (IsBodyAt image.now.bytes a (rva_of rows.now row)) }
    ensures valid { IfOk result (λ read. IfSome read (IsValid a)) }
    ensures accepted { OnOk result ((r : Refusal) → FaultAt image.now.bytes (method_place a row) (rva_of rows.now row) r → ⊥) }
    ensures broken { OnRefused result (FaultAt image.now.bytes (method_place a row) (rva_of rows.now row)) }
    ensures first { OnRefused result (λ r. (s : Refusal) → FaultAt image.now.bytes (method_place a row) (rva_of rows.now row) s → s ≡ r) }
{
    let place = Place {
        assembly: a,
        table: METHOD_DEF,
        row,
    };
    read_body(alloc, image, place, rows.cell(METHOD_DEF, row, 0))
}

/// Appends a body.
fn push_body(bodies: &mut Vec<Option<Body>>, body: Option<Body>) -> Result<(), AllocError>
    ensures { OnOk result (bodies.new.items ≡ bodies.old.items ++ body ∷ []) }
{
    match bodies.push(body) {
        Ok(()) => Ok(()),
        Err(e) => Err(e.into()),
    }
}

/// The bodies of the MethodDef rows of assembly number `a`, by row from 0. The refusal is that of
/// the first row whose body is refused.
pub fn bodies(
    alloc: Global,
    image: &Image<'_>,
    rows: &Rows<'_>,
    a: u32,
) -> Result<Vec<Option<Body>>, Fault>
    requires { length image.now.bytes < 2 ^ 32 }
    ensures bodies { IfOk result (λ v. AreBodies rows.now image.now.bytes a v.items) }
    ensures accepted { OnOk result (NoneBroken (RowFault rows.now image.now.bytes a)) }
    ensures refused { OnRefused result (First (RowFault rows.now image.now.bytes a)) }
{
    let count = rows.count(METHOD_DEF);
    let mut bodies = Vec::new(alloc);
    for k in 0..count {
        match method_body(alloc, image, rows, a, k + 1) {
            Ok(body) => push_body(&mut bodies, body)?,
            Err(fault) => return Err(fault),
        }
    }
    Ok(bodies)
}

/// A body at an RVA of an assembly of a set is one that the assembly's bytes from there on stand for,
/// as a program of the set asks of a method with a row.
pub fn bodies_have_code()
    ensures { (s : Assemblies) (a rva : ℕ) (body : Option Body) → IsBodyAt (assembly_at s a).bytes a rva body → HasCode (code_in s a) a rva body }
{}
