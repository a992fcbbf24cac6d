// What paths lead to in structs (ECMA-335, I.12.1.1.2 and III.1.1.1).

ghost use Rattle.std.specs.Prelude.{◌≡◌, ◌<◌, drop, length, slice_get, slice_set, option_map, IfOk};
ghost use Rattle.std.specs.Option.{option_copied};
ghost use Rattle.cil_model.specs.declared.value.Value.{Struct as structure, out-Value};
ghost use Rattle.cil_semantics.specs.Places.{field_types, field_tys, fields_in, read_path, storage, write_path};

use cil_model::{Program, Ty, Value, Values};
use il_opcodes::Storage;
use run_values::{copied_values, storage_of, stored_by_type, types_of_fields};
use std::alloc::{AllocError, Global};

fn part_of(v: &Value, at: usize) -> Option<&Value>
    ensures { option_copied result ≡ slice_get (fields_in (out-Value v.now)) at }
{
    match v {
        Value::Struct(parts) => parts.get(at),
        _ => None,
    }
}

/// What stands in a value where a path leads.
pub fn read_path<'a>(v: &'a Value, path: &[u32]) -> Option<&'a Value>
    ensures { option_copied result ≡ read_path path.now v.now }
{
    let mut at = v;
    for part in path {
        let Some(next) = part_of(at, *part as usize) else {
            return None;
        };
        at = next;
    }
    Some(at)
}

fn copied_of(alloc: Global, tys: &[Ty], at: usize) -> Result<Option<Ty>, AllocError>
    ensures { IfOk result (λ ty. ty ≡ slice_get tys.now at) }
{
    match tys.get(at) {
        None => Ok(None),
        Some(ty) => Ok(Some(ty.copied(alloc)?)),
    }
}

fn type_among(
    alloc: Global,
    program: &Program,
    ty: &Ty,
    at: usize,
    storage: Storage,
) -> Result<Option<Ty>, AllocError>
    ensures { IfOk result (λ part. part ≡ slice_get (field_tys (field_types program.now ty.now) storage) at) }
{
    match storage {
        Storage::Fields(_) => {
            let tys = types_of_fields(alloc, program, ty)?;
            let part = copied_of(alloc, tys.as_slice(), at)?;
            Ok(part)
        }
        _ => Ok(None),
    }
}

// The type of a field of a struct.
fn type_of_part(
    alloc: Global,
    program: &Program,
    ty: &Ty,
    at: usize,
) -> Result<Option<Ty>, AllocError>
    ensures { IfOk result (λ part. part ≡ slice_get (field_tys (field_types program.now ty.now) (storage program.now ty.now)) at) }
{
    let part = type_among(alloc, program, ty, at, storage_of(program, ty))?;
    Ok(part)
}

fn with_item(
    alloc: Global,
    parts: &Values,
    at: usize,
    w: Value,
) -> Result<Option<Value>, AllocError>
    ensures { IfOk result (λ v. v ≡ option_map (λ x. structure (slice_set parts.now at w)) (slice_get parts.now at)) }
{
    if at < parts.len() {
        let mut copies = copied_values(alloc, parts)?;
        copies.set(at, w);
        Ok(Some(Value::Struct(copies)))
    } else {
        Ok(None)
    }
}

// A struct with another value in a field; `None` where it has no such field.
fn with_part(alloc: Global, old: &Value, at: usize, w: Value) -> Result<Option<Value>, AllocError>
    ensures { IfOk result (λ v. v ≡ option_map (λ x. structure (slice_set (fields_in (out-Value old.now)) at w)) (slice_get (fields_in (out-Value old.now)) at)) }
{
    match old {
        Value::Struct(parts) => {
            let it = with_item(alloc, parts, at, w)?;
            Ok(it)
        }
        _ => Ok(None),
    }
}

#[cycle(paths)]
fn written_in_part(
    alloc: Global,
    program: &Program,
    path: &[u32],
    from: usize,
    ty: &Ty,
    new: Value,
    old: &Value,
) -> Result<Option<Value>, AllocError>
    requires { from < length path.now }
    ensures { IfOk result (λ left. left ≡ write_path program.now (drop from path.now) ty.now new old.now) }
{
    let at = path[from] as usize;
    let Some(part_ty) = type_of_part(alloc, program, ty, at)? else {
        return Ok(None);
    };
    let Some(part) = part_of(old, at) else {
        return Ok(None);
    };
    match written_from(alloc, program, path, from + 1, &part_ty, new, part)? {
        None => Ok(None),
        Some(w) => with_part(alloc, old, at, w),
    }
}

#[cycle(paths)]
fn written_from(
    alloc: Global,
    program: &Program,
    path: &[u32],
    from: usize,
    ty: &Ty,
    new: Value,
    old: &Value,
) -> Result<Option<Value>, AllocError>
    ensures { IfOk result (λ left. left ≡ write_path program.now (drop from path.now) ty.now new old.now) }
{
    if from < path.len() {
        written_in_part(alloc, program, path, from, ty, new, old)
    } else {
        stored_by_type(alloc, program, ty, new)
    }
}

/// The value of a type with another where a path leads; `None` where none may be stored there.
pub fn write_path(
    alloc: Global,
    program: &Program,
    path: &[u32],
    ty: &Ty,
    new: Value,
    old: &Value,
) -> Result<Option<Value>, AllocError>
    ensures { IfOk result (λ left. left ≡ write_path program.now path.now ty.now new old.now) }
{
    let left = written_from(alloc, program, path, 0, ty, new, old)?;
    Ok(left)
}
