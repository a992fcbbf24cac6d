// Values that fit a type of their own kind (ECMA-335, I.12.1 and II.14.3).

ghost use Rattle.std.specs.Prelude.{◌≡◌, IfOk};
ghost use Rattle.cil_model.specs.declared.value.Value.{out-Value};
ghost use Rattle.cil_semantics.specs.Outside.{all_fit, fits, fits_fields, fits_storage, fits_within, is_i4, is_i8, is_native, is_opaque_value};
ghost use Rattle.cil_semantics.specs.Places.{field_types};

use crate::plain::is_plain;
use crate::references::refers_to;
use cil_model::{Program, Ty, Value};
use cil_semantics::World;
use il_opcodes::Storage;
use run_values::{storage_of, types_of_fields};
use std::alloc::{AllocError, Global};

fn is_i4(v: &Value) -> bool
    ensures { result ≡ is_i4 (out-Value v.now) }
{
    matches!(v, Value::I4(_))
}

fn is_i8(v: &Value) -> bool
    ensures { result ≡ is_i8 (out-Value v.now) }
{
    matches!(v, Value::I8(_))
}

fn is_native(v: &Value) -> bool
    ensures { result ≡ is_native (out-Value v.now) }
{
    matches!(v, Value::Native(_))
}

fn is_opaque(v: &Value) -> bool
    ensures { result ≡ is_opaque_value (out-Value v.now) }
{
    matches!(v, Value::Opaque(_))
}

#[cycle(fits)]
fn all_fit(
    alloc: Global,
    depth: u32,
    program: &Program,
    world: &World,
    tys: &[Ty],
    values: &[Value],
) -> Result<bool, AllocError>
    ensures { IfOk result (λ fit. fit ≡ all_fit (fits_within depth program.now world.now) tys.now values.now) }
{
    if tys.len() != values.len() {
        return Ok(false);
    }
    for k in 0..tys.len() {
        if !fits_within(alloc, depth, program, world, &tys[k], &values[k])? {
            return Ok(false);
        }
    }
    Ok(true)
}

#[cycle(fits)]
fn fields_fit(
    alloc: Global,
    depth: u32,
    program: &Program,
    world: &World,
    ty: &Ty,
    v: &Value,
) -> Result<bool, AllocError>
    ensures { IfOk result (λ fit. fit ≡ fits_fields (fits_within depth program.now world.now) (field_types program.now ty.now) (out-Value v.now)) }
{
    let Value::Struct(parts) = v else {
        return Ok(false);
    };
    let tys = types_of_fields(alloc, program, ty)?;
    let fit = all_fit(
        alloc,
        depth,
        program,
        world,
        tys.as_slice(),
        parts.as_slice(),
    )?;
    Ok(fit)
}

#[cycle(fits)]
fn fits_kind(
    alloc: Global,
    depth: u32,
    program: &Program,
    world: &World,
    ty: &Ty,
    v: &Value,
    storage: Storage,
) -> Result<bool, AllocError>
    ensures { IfOk result (λ fit. fit ≡ fits_storage program.now world.now (fits_within depth program.now world.now) ty.now v.now storage) }
{
    match storage {
        Storage::Truncated(_, _) => Ok(is_i4(v)),
        Storage::Long => Ok(is_i8(v)),
        Storage::NativeInt => Ok(is_native(v)),
        Storage::Reference => refers_to(alloc, program, world, ty, v),
        Storage::Fields(_) => fields_fit(alloc, depth, program, world, ty, v),
        Storage::Opaque => Ok(is_opaque(v)),
        Storage::Anything => Ok(is_plain(world, v)),
        Storage::Address => Ok(false),
        Storage::Void => Ok(false),
    }
}

/// Structs nest at most `depth` deep.
#[cycle(fits)]
fn fits_within(
    alloc: Global,
    depth: u32,
    program: &Program,
    world: &World,
    ty: &Ty,
    v: &Value,
) -> Result<bool, AllocError>
    ensures { IfOk result (λ fit. fit ≡ fits_within depth program.now world.now ty.now v.now) }
{
    if depth == 0 {
        return Ok(false);
    }
    fits_kind(
        alloc,
        depth - 1,
        program,
        world,
        ty,
        v,
        storage_of(program, ty),
    )
}

/// Whether a value fits a type of its own kind; structs nest at most 1,000 deep.
pub fn fits(
    alloc: Global,
    program: &Program,
    world: &World,
    ty: &Ty,
    v: &Value,
) -> Result<bool, AllocError>
    ensures { IfOk result (λ fit. fit ≡ fits program.now world.now ty.now v.now) }
{
    let fit = fits_within(alloc, 1001, program, world, ty, v)?;
    Ok(fit)
}
