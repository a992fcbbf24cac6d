// The values that a method of a delegate or of an object is given (ECMA-335, II.14.6 and III.4.2).

ghost use Rattle.std.specs.Prelude.{◌≡◌, ◌∷◌, ◌++◌, if◌then◌else◌, IfOk, OnOk};
ghost use Rattle.cil_model.specs.declared.value.Value.{out-Value};
ghost use Rattle.cil_semantics.specs.Frames.{delegate_values, is_nothing, this_value};
ghost use Rattle.cil_semantics.specs.Places.{is_reference};

use crate::facts::is_static_method;
use cil_model::{Program, Ty, Value, Values};
use il_opcodes::Storage;
use run_heap::inside;
use run_values::{copied_value, storage_of};
use sqlite_items::Boxed;
use std::alloc::{AllocError, Global};

fn is_of_references(storage: Storage) -> bool
    ensures { result ≡ is_reference storage }
{
    matches!(storage, Storage::Reference)
}

/// `this` in a method of a closed type: what is there, or of a struct a pointer to what is boxed.
pub fn this_value(alloc: Global, program: &Program, ty: &Ty, v: &Value) -> Result<Value, AllocError>
    ensures { IfOk result (λ this. this ≡ this_value program.now ty.now (out-Value v.now) v.now) }
{
    let Value::Obj(k) = v else {
        return copied_value(alloc, v);
    };
    if is_of_references(storage_of(program, ty)) {
        return copied_value(alloc, v);
    }
    Ok(Value::Ptr(Boxed::new(alloc, inside(alloc, *k, 0)?)?))
}

fn push_copies(alloc: Global, all: &mut Values, values: &[Value]) -> Result<(), AllocError>
    ensures { OnOk result (all.new ≡ all.old ++ values.now) }
{
    for v in values {
        all.push(copied_value(alloc, v)?)?;
    }
    Ok(())
}

/// A value, and behind it equal ones to others.
pub fn values_behind(alloc: Global, first: Value, values: &[Value]) -> Result<Values, AllocError>
    ensures { IfOk result (λ all. all ≡ first ∷ values.now) }
{
    let mut all = Values::new(alloc);
    all.push(first)?;
    push_copies(alloc, &mut all, values)?;
    Ok(all)
}

fn is_nothing(v: &Value) -> bool
    ensures { result ≡ is_nothing (out-Value v.now) }
{
    matches!(v, Value::Null)
}

/// Equal values of their own.
pub fn copied_list(alloc: Global, values: &[Value]) -> Result<Values, AllocError>
    ensures { IfOk result (λ all. all ≡ values.now) }
{
    let mut all = Values::new(alloc);
    push_copies(alloc, &mut all, values)?;
    Ok(all)
}

// A static method with a target, or without one.
fn static_values(alloc: Global, target: &Value, values: &[Value]) -> Result<Values, AllocError>
    ensures { IfOk result (λ all. all ≡ (if is_nothing (out-Value target.now) then values.now else target.now ∷ values.now)) }
{
    if is_nothing(target) {
        let all = copied_list(alloc, values)?;
        return Ok(all);
    }
    let all = values_behind(alloc, copied_value(alloc, target)?, values)?;
    Ok(all)
}

/// What the method of a delegate is given, by its target.
pub fn delegate_values(
    alloc: Global,
    program: &Program,
    owner: &Ty,
    method: u32,
    target: &Value,
    values: &[Value],
) -> Result<Values, AllocError>
    ensures { IfOk result (λ all. all ≡ delegate_values program.now owner.now method target.now values.now) }
{
    if is_static_method(program, method) {
        let all = static_values(alloc, target, values)?;
        return Ok(all);
    }
    let this = this_value(alloc, program, owner, target)?;
    let all = values_behind(alloc, this, values)?;
    Ok(all)
}
