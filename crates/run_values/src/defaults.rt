// The default values of places (ECMA-335, II.15.4.1.3).

ghost use Rattle.std.specs.Prelude.{◌≡◌, map, IfOk};
ghost use Rattle.cil_model.specs.declared.value.Value.{Struct as structure};
ghost use Rattle.cil_semantics.specs.Places.{default_by_storage, default_cell, default_value, default_within, field_types};

use crate::fields::types_of_fields;
use crate::kinds::storage_of;
use cil_base::Bytes;
use cil_model::{Program, Ty, Value, Values};
use cil_semantics::Cell;
use il_opcodes::Storage;
use std::alloc::{AllocError, Global};

/// The default values of types whose structs nest at most `depth` deep.
#[cycle(defaults)]
fn defaults_within(
    alloc: Global,
    depth: u32,
    program: &Program,
    tys: &[Ty],
) -> Result<Values, AllocError>
    ensures { IfOk result (λ vs. vs ≡ map (default_within depth program.now) tys.now) }
{
    let mut values = Values::new(alloc);
    for ty in tys {
        values.push(value_within(alloc, depth, program, ty)?)?;
    }
    Ok(values)
}

#[cycle(defaults)]
fn struct_within(alloc: Global, depth: u32, program: &Program, ty: &Ty) -> Result<Value, AllocError>
    ensures { IfOk result (λ v. v ≡ structure (map (default_within depth program.now) (field_types program.now ty.now))) }
{
    let tys = types_of_fields(alloc, program, ty)?;
    Ok(Value::Struct(defaults_within(alloc, depth, program, tys.as_slice())?))
}

#[cycle(defaults)]
fn kind_within(
    alloc: Global,
    depth: u32,
    program: &Program,
    ty: &Ty,
    storage: Storage,
) -> Result<Value, AllocError>
    ensures { IfOk result (λ v. v ≡ default_by_storage (default_within depth program.now) (field_types program.now ty.now) storage) }
{
    match storage {
        Storage::Truncated(_, _) => Ok(Value::I4(0)),
        Storage::Long => Ok(Value::I8(0)),
        Storage::NativeInt => Ok(Value::Native(0)),
        Storage::Reference => Ok(Value::Null),
        Storage::Address => Ok(Value::Null),
        Storage::Fields(_) => struct_within(alloc, depth, program, ty),
        Storage::Opaque => Ok(Value::Opaque(Bytes::new(alloc))),
        Storage::Anything => Ok(Value::Opaque(Bytes::new(alloc))),
        Storage::Void => Ok(Value::Opaque(Bytes::new(alloc))),
    }
}

#[cycle(defaults)]
fn value_within(alloc: Global, depth: u32, program: &Program, ty: &Ty) -> Result<Value, AllocError>
    ensures { IfOk result (λ v. v ≡ default_within depth program.now ty.now) }
{
    if depth == 0 {
        return Ok(Value::Opaque(Bytes::new(alloc)));
    }
    kind_within(alloc, depth - 1, program, ty, storage_of(program, ty))
}

/// The default value of a place of a type.
pub fn default_of(alloc: Global, program: &Program, ty: &Ty) -> Result<Value, AllocError>
    ensures { IfOk result (λ v. v ≡ default_value program.now ty.now) }
{
    value_within(alloc, 1001, program, ty)
}

/// A place of a type with its default value.
pub fn new_default(alloc: Global, program: &Program, ty: Ty) -> Result<Cell, AllocError>
    ensures { IfOk result (λ c. c ≡ default_cell program.now ty) }
{
    let value = default_of(alloc, program, &ty)?;
    Ok(Cell { ty, value })
}
