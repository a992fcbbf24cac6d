// What a store leaves in a place of a type: a struct's fields are stored one by one (ECMA-335, III.1.1.1).

ghost use Rattle.std.specs.Prelude.{◌≡◌, IfOk};
ghost use Rattle.cil_model.specs.declared.value.Value.{out-Value};
ghost use Rattle.cil_semantics.specs.Places.{each_stored, field_types, stored, stored_by_storage, stored_in, stored_struct, stored_within};

use crate::copies::copied_value;
use crate::fields::types_of_fields;
use crate::kinds::storage_of;
use crate::stores::stored_as;
use cil_model::{Program, Ty, Value, Values};
use il_opcodes::Storage;
use std::alloc::{AllocError, Global};

fn copy_stored(alloc: Global, storage: Storage, v: &Value) -> Result<Option<Value>, AllocError>
    ensures { IfOk result (λ left. left ≡ stored storage v.now) }
{
    let copy = copied_value(alloc, v)?;
    Ok(stored_as(storage, copy))
}

/// Each value stored in a place of its type.
#[cycle(structs)]
fn parts_stored(
    alloc: Global,
    depth: u32,
    program: &Program,
    tys: &[Ty],
    parts: &[Value],
) -> Result<Option<Values>, AllocError>
    ensures { IfOk result (λ left. left ≡ each_stored (stored_within depth program.now) tys.now parts.now) }
{
    if tys.len() != parts.len() {
        return Ok(None);
    }
    let mut left = Values::new(alloc);
    for k in 0..tys.len() {
        match value_stored(alloc, depth, program, &tys[k], &parts[k])? {
            None => return Ok(None),
            Some(v) => left.push(v)?,
        }
    }
    Ok(Some(left))
}

#[cycle(structs)]
fn struct_stored(
    alloc: Global,
    depth: u32,
    program: &Program,
    ty: &Ty,
    v: &Value,
) -> Result<Option<Value>, AllocError>
    ensures { IfOk result (λ left. left ≡ stored_struct (stored_within depth program.now) (field_types program.now ty.now) (out-Value v.now)) }
{
    let Value::Struct(parts) = v else {
        return Ok(None);
    };
    let tys = types_of_fields(alloc, program, ty)?;
    match parts_stored(alloc, depth, program, tys.as_slice(), parts.as_slice())? {
        None => Ok(None),
        Some(left) => Ok(Some(Value::Struct(left))),
    }
}

#[cycle(structs)]
fn kind_stored(
    alloc: Global,
    depth: u32,
    program: &Program,
    ty: &Ty,
    v: &Value,
    storage: Storage,
) -> Result<Option<Value>, AllocError>
    ensures { IfOk result (λ left. left ≡ stored_by_storage (stored_within depth program.now) (field_types program.now ty.now) v.now storage) }
{
    match storage {
        Storage::Fields(_) => struct_stored(alloc, depth, program, ty, v),
        _ => copy_stored(alloc, storage, v),
    }
}

/// Structs nest at most `depth` deep.
#[cycle(structs)]
fn value_stored(
    alloc: Global,
    depth: u32,
    program: &Program,
    ty: &Ty,
    v: &Value,
) -> Result<Option<Value>, AllocError>
    ensures { IfOk result (λ left. left ≡ stored_within depth program.now ty.now v.now) }
{
    if depth == 0 {
        return Ok(None);
    }
    kind_stored(alloc, depth - 1, program, ty, v, storage_of(program, ty))
}

fn store_by_kind(
    alloc: Global,
    program: &Program,
    ty: &Ty,
    v: Value,
    storage: Storage,
) -> Result<Option<Value>, AllocError>
    ensures { IfOk result (λ left. left ≡ stored_by_storage (stored_within 1000 program.now) (field_types program.now ty.now) v storage) }
{
    match storage {
        Storage::Fields(_) => struct_stored(alloc, 1000, program, ty, &v),
        _ => Ok(stored_as(storage, v)),
    }
}

/// What a store of a value leaves in a place of a type; `None` where the value is of another kind.
pub fn stored_by_type(
    alloc: Global,
    program: &Program,
    ty: &Ty,
    v: Value,
) -> Result<Option<Value>, AllocError>
    ensures { IfOk result (λ left. left ≡ stored_in program.now ty.now v) }
{
    store_by_kind(alloc, program, ty, v, storage_of(program, ty))
}
