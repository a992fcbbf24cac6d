// References that fit a type (ECMA-335, I.8.7.3).

ghost use Rattle.std.specs.Prelude.{◌≡◌, false, IfOk};
ghost use Rattle.cil_model.specs.declared.value.Value.{out-Value};
ghost use Rattle.cil_semantics.specs.Core.{string_ty};
ghost use Rattle.cil_semantics.specs.Lookups.{is_sub};
ghost use Rattle.cil_semantics.specs.Outside.{refers_to};
ghost use Rattle.cil_semantics.specs.State.{object_at};
ghost use Rattle.cil_semantics.specs.Words.{maybe};
ghost use Rattle.cil_semantics.specs.declared.Object.{Object as ObjectOf};

use cil_model::{Program, Ty, Value};
use cil_semantics::World;
use look_ups::is_subtype;
use run_heap::object_of;
use std::alloc::{AllocError, Global};

fn object_refers(
    alloc: Global,
    program: &Program,
    world: &World,
    ty: &Ty,
    k: u32,
) -> Result<bool, AllocError>
    ensures { IfOk result (λ is. is ≡ maybe false (λ (o : ObjectOf). is_sub program.now o.ty ty.now) (object_at world.now k)) }
{
    match object_of(world, k) {
        None => Ok(false),
        Some(object) => is_subtype(alloc, program, &object.ty, ty),
    }
}

fn text_refers(alloc: Global, program: &Program, ty: &Ty) -> Result<bool, AllocError>
    ensures { IfOk result (λ is. is ≡ is_sub program.now string_ty ty.now) }
{
    let text = Ty::Prim(0x0E);
    let is = is_subtype(alloc, program, &text, ty)?;
    Ok(is)
}

/// Whether a value is null, an object that is there and of a sub of the type, or a text where a string is a sub of it.
pub fn refers_to(
    alloc: Global,
    program: &Program,
    world: &World,
    ty: &Ty,
    v: &Value,
) -> Result<bool, AllocError>
    ensures { IfOk result (λ is. is ≡ refers_to program.now world.now ty.now (out-Value v.now)) }
{
    match v {
        Value::Null => Ok(true),
        Value::Obj(k) => object_refers(alloc, program, world, ty, *k),
        Value::Text(_) => text_refers(alloc, program, ty),
        _ => Ok(false),
    }
}
