// Copies of values.

ghost use Rattle.std.specs.Prelude.{◌≡◌, IfOk};
ghost use Rattle.cil_model.specs.declared.value.Value.{Text as text, Ptr as pointer, Func as function, Opaque as carried};

use cil_base::{Bytes, U32s, Units};
use cil_model::{Pointer, TypeArgs, Value, Values};
use sqlite_items::Boxed;
use std::alloc::{AllocError, Global};

fn copied_text(alloc: Global, units: &Units) -> Result<Value, AllocError>
    ensures { IfOk result (λ copy. copy ≡ text units.now) }
{
    Ok(Value::Text(Units::from_slice(alloc, units.as_slice())?))
}

fn copied_bytes(alloc: Global, bytes: &Bytes) -> Result<Value, AllocError>
    ensures { IfOk result (λ copy. copy ≡ carried bytes.now) }
{
    Ok(Value::Opaque(Bytes::from_slice(alloc, bytes.as_slice())?))
}

fn copied_place(alloc: Global, q: &Pointer) -> Result<Value, AllocError>
    ensures { IfOk result (λ copy. copy ≡ pointer q.now) }
{
    let copy = copied_pointer(alloc, q)?;
    Ok(Value::Ptr(Boxed::new(alloc, copy)?))
}

fn copied_function(alloc: Global, method: u32, under: &TypeArgs) -> Result<Value, AllocError>
    ensures { IfOk result (λ copy. copy ≡ function method under.now) }
{
    let copy = under.copied(alloc)?;
    Ok(Value::Func {
        method,
        under: Boxed::new(alloc, copy)?,
    })
}

/// An equal value of its own.
#[cycle(copies)]
pub fn copied_value(alloc: Global, v: &Value) -> Result<Value, AllocError>
    ensures { IfOk result (λ copy. copy ≡ v.now) }
{
    match v {
        Value::I4(z) => Ok(Value::I4(*z)),
        Value::I8(z) => Ok(Value::I8(*z)),
        Value::Native(z) => Ok(Value::Native(*z)),
        Value::Null => Ok(Value::Null),
        Value::Obj(k) => Ok(Value::Obj(*k)),
        Value::Text(units) => copied_text(alloc, units),
        Value::Ptr(q) => copied_place(alloc, q.get()),
        Value::Struct(parts) => Ok(Value::Struct(copied_values(alloc, parts)?)),
        Value::Func { method, under } => copied_function(alloc, *method, under.get()),
        Value::Opaque(bytes) => copied_bytes(alloc, bytes),
    }
}

/// An equal list of its own.
#[cycle(copies)]
pub fn copied_values(alloc: Global, values: &Values) -> Result<Values, AllocError>
    ensures { IfOk result (λ copy. copy ≡ values.now) }
{
    let mut copies = Values::new(alloc);
    for value in values.as_slice() {
        copies.push(copied_value(alloc, value)?)?;
    }
    Ok(copies)
}

/// An equal pointer of its own.
pub fn copied_pointer(alloc: Global, q: &Pointer) -> Result<Pointer, AllocError>
    ensures { IfOk result (λ copy. copy ≡ q.now) }
{
    match q {
        Pointer::Arg {
            frame,
            method,
            index,
            path,
        } => Ok(Pointer::Arg {
            frame: *frame,
            method: *method,
            index: *index,
            path: U32s::from_slice(alloc, path.as_slice())?,
        }),
        Pointer::Local {
            frame,
            method,
            index,
            path,
        } => Ok(Pointer::Local {
            frame: *frame,
            method: *method,
            index: *index,
            path: U32s::from_slice(alloc, path.as_slice())?,
        }),
        Pointer::Inside { object, path } => Ok(Pointer::Inside {
            object: *object,
            path: U32s::from_slice(alloc, path.as_slice())?,
        }),
        Pointer::Static { owner, field, path } => Ok(Pointer::Static {
            owner: owner.copied(alloc)?,
            field: *field,
            path: U32s::from_slice(alloc, path.as_slice())?,
        }),
    }
}
