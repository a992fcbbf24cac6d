// Arrays that are made, and their lengths (ECMA-335, III.4.12 and 4.20).

ghost use Rattle.std.specs.Prelude.{◌≡◌, pos, length, IfOk};
ghost use Rattle.std.specs.Option.{option_copied};
ghost use Rattle.cil_model.specs.declared.value.Value.{out-Value, Native as native};
ghost use Rattle.cil_semantics.specs.Acts as acts;
ghost use Rattle.frame_acts.specs.Meant.{meant};

use cil_model::{Meaning, Program, Ty, Value};
use cil_semantics::{Local, Object, World};
use frame_acts::{Wanted, push};
use run_heap::{number_of_next, object_of};
use run_numbers::{Exception, index_of, number_in};
use run_values::default_of;
use std::alloc::{AllocError, Global};

fn make_array(
    alloc: Global,
    program: &Program,
    ty: &Ty,
    count: u64,
    world: &World,
    local: &mut Local,
) -> Result<Wanted, AllocError>
    ensures { IfOk result (λ a. meant a local.new ≡ acts.made_array program.now ty.now (pos count) world.now local.old local.old.stack) }
{
    let number = number_of_next(world)?;
    local.stack.push(Value::Obj(number))?;
    let first = default_of(alloc, program, ty)?;
    let item = ty.copied(alloc)?;
    Ok(Wanted::MakeArray(item, first, count))
}

fn make_counted(
    alloc: Global,
    program: &Program,
    ty: &Ty,
    count: Option<i64>,
    world: &World,
    local: &mut Local,
) -> Result<Wanted, AllocError>
    ensures { IfOk result (λ a. meant a local.new ≡ acts.if_some count (λ z. acts.made_array program.now ty.now z world.now local.old local.old.stack)) }
{
    let Some(z) = count else {
        return Ok(Wanted::Stuck);
    };
    match u64::try_from(z) {
        Ok(n) => {
            let answer = make_array(alloc, program, ty, n, world, local)?;
            Ok(answer)
        }
        Err(_) => Ok(Wanted::Raise(Exception::Overflow)),
    }
}

/// `newarr`
pub fn new_array(
    alloc: Global,
    program: &Program,
    meaning: Option<&Meaning>,
    world: &World,
    local: &mut Local,
) -> Result<Wanted, AllocError>
    ensures { IfOk result (λ a. meant a local.new ≡ acts.on_type (option_copied meaning.entry) (λ t. acts.on_top local.old.stack (λ n rest. acts.if_some (acts.index_number (acts.numeric n)) (λ z. acts.made_array program.now t z world.now local.old rest)))) }
{
    let Some(Meaning::OfType(ty)) = meaning else {
        return Ok(Wanted::Stuck);
    };
    let Some(n) = local.stack.pop() else {
        return Ok(Wanted::Stuck);
    };
    let answer = make_counted(alloc, program, ty, index_of(number_in(&n)), world, local)?;
    Ok(answer)
}

fn push_length(object: &Object, local: &mut Local) -> Result<Wanted, AllocError>
    ensures { IfOk result (λ a. meant a local.new ≡ acts.if_some (acts.item_type object.now) (λ t. acts.goes_with local.old (native (pos (length object.now.cells))) local.old.stack)) }
{
    let Ty::Array(_) = &object.ty else {
        return Ok(Wanted::Stuck);
    };
    match i64::try_from(object.cells.len()) {
        Err(_) => Err(AllocError),
        Ok(count) => {
            let answer = push(Value::Native(count), local)?;
            Ok(answer)
        }
    }
}

fn length_of(array: &Value, world: &World, local: &mut Local) -> Result<Wanted, AllocError>
    ensures { IfOk result (λ a. meant a local.new ≡ acts.on_array world.now (out-Value array.now) (λ k o t. acts.goes_with local.old (native (pos (length o.cells))) local.old.stack)) }
{
    match array {
        Value::Null => Ok(Wanted::Raise(Exception::NullReference)),
        Value::Obj(k) => {
            let Some(object) = object_of(world, *k) else {
                return Ok(Wanted::Stuck);
            };
            let answer = push_length(object, local)?;
            Ok(answer)
        }
        _ => Ok(Wanted::Stuck),
    }
}

/// `ldlen`. A length past eight bytes is answered as want of memory.
pub fn load_length(world: &World, local: &mut Local) -> Result<Wanted, AllocError>
    ensures { IfOk result (λ a. meant a local.new ≡ acts.on_top local.old.stack (λ a rest. acts.on_array world.now (out-Value a) (λ k o t. acts.goes_with local.old (native (pos (length o.cells))) rest))) }
{
    match local.stack.pop() {
        None => Ok(Wanted::Stuck),
        Some(a) => {
            let answer = length_of(&a, world, local)?;
            Ok(answer)
        }
    }
}
