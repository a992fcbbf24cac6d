// Types of objects (ECMA-335, I.8.7.3 and III.1.8.1.2.1).

ghost use Rattle.std.specs.Prelude.{◌≡◌, option_map, IfOk};
ghost use Rattle.cil_semantics.specs.Acts as acts;
ghost use Rattle.cil_semantics.specs.Core.{string_ty};
ghost use Rattle.cil_semantics.specs.Lookups.{is_sub};
ghost use Rattle.cil_semantics.specs.State.{object_at};
ghost use Rattle.cil_semantics.specs.declared.Object.{Object as ObjectOf};

use crate::objects::object_of;
use cil_model::{Program, Ty, Value};
use cil_semantics::World;
use look_ups::is_subtype;
use std::alloc::{AllocError, Global};

fn is_object_sub(
    alloc: Global,
    program: &Program,
    world: &World,
    k: u32,
    ty: &Ty,
) -> Result<Option<bool>, AllocError>
    ensures { IfOk result (λ is. is ≡ option_map (λ u. is_sub program.now u ty.now) (option_map (λ (o : ObjectOf). o.ty) (object_at world.now k))) }
{
    match object_of(world, k) {
        None => Ok(None),
        Some(object) => Ok(Some(is_subtype(alloc, program, &object.ty, ty)?)),
    }
}

fn is_text_sub(alloc: Global, program: &Program, ty: &Ty) -> Result<bool, AllocError>
    ensures { IfOk result (λ is. is ≡ is_sub program.now string_ty ty.now) }
{
    let text = Ty::Prim(0x0E);
    let is = is_subtype(alloc, program, &text, ty)?;
    Ok(is)
}

/// Whether the type of a reference's object is a sub of a type; `None` for null and for what is no reference.
pub fn is_of_type(
    alloc: Global,
    program: &Program,
    world: &World,
    v: &Value,
    ty: &Ty,
) -> Result<Option<bool>, AllocError>
    ensures { IfOk result (λ is. is ≡ option_map (λ u. is_sub program.now u ty.now) (acts.dynamic_type world.now v.now)) }
{
    match v {
        Value::Obj(k) => {
            let is = is_object_sub(alloc, program, world, *k, ty)?;
            Ok(is)
        }
        Value::Text(_) => Ok(Some(is_text_sub(alloc, program, ty)?)),
        _ => Ok(None),
    }
}
