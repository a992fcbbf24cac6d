// Casts (ECMA-335, III.4.3 and 4.6).

ghost use Rattle.std.specs.Prelude.{◌≡◌, if◌then◌else◌, IfOk};
ghost use Rattle.std.specs.Option.{option_copied};
ghost use Rattle.cil_model.specs.declared.value.Value.{Null as null};
ghost use Rattle.cil_semantics.specs.Acts as acts;
ghost use Rattle.cil_semantics.specs.Acts.{Act};
ghost use Rattle.frame_acts.specs.Meant.{meant};
ghost use Rattle.cast_acts.specs.Found.{cast_act};

use cil_model::{Meaning, Program, Ty, Value};
use cil_semantics::{Local, World};
use frame_acts::{Wanted, push};
use run_heap::is_of_type;
use run_numbers::Exception;
use std::alloc::{AllocError, Global};

/// Whether a value is null or of a type; it is stuck where it is no reference.
#[derive(Clone, Copy)]
pub enum Cast {
    Passes,
    Fails,
    Stuck,
}

fn cast_by(is: Option<bool>) -> Cast
    ensures { (passes other : Act) → cast_act result passes other ≡ acts.if_some is (λ b. if b then passes else other) }
{
    match is {
        None => Cast::Stuck,
        Some(true) => Cast::Passes,
        Some(false) => Cast::Fails,
    }
}

/// Looks whether a value is null or of a type.
pub fn find_cast(
    alloc: Global,
    program: &Program,
    world: &World,
    v: &Value,
    ty: &Ty,
) -> Result<Cast, AllocError>
    ensures { (passes other : Act) → IfOk result (λ c. cast_act c passes other ≡ acts.cast program.now ty.now v.now passes other world.now) }
{
    match v {
        Value::Null => Ok(Cast::Passes),
        _ => Ok(cast_by(is_of_type(alloc, program, world, v, ty)?)),
    }
}

fn finish_cast(cast: Cast, v: Value, local: &mut Local) -> Result<Wanted, AllocError>
    ensures { IfOk result (λ a. meant a local.new ≡ cast_act cast (acts.goes_with local.old v local.old.stack) acts.invalid_cast) }
{
    match cast {
        Cast::Passes => {
            let answer = push(v, local)?;
            Ok(answer)
        }
        Cast::Fails => Ok(Wanted::Raise(Exception::InvalidCast)),
        Cast::Stuck => Ok(Wanted::Stuck),
    }
}

fn finish_test(cast: Cast, v: Value, local: &mut Local) -> Result<Wanted, AllocError>
    ensures { IfOk result (λ a. meant a local.new ≡ cast_act cast (acts.goes_with local.old v local.old.stack) (acts.goes_with local.old null local.old.stack)) }
{
    match cast {
        Cast::Passes => {
            let answer = push(v, local)?;
            Ok(answer)
        }
        Cast::Fails => {
            let answer = push(Value::Null, local)?;
            Ok(answer)
        }
        Cast::Stuck => Ok(Wanted::Stuck),
    }
}

pub(crate) fn cast_value(
    alloc: Global,
    program: &Program,
    world: &World,
    ty: &Ty,
    v: Value,
    local: &mut Local,
) -> Result<Wanted, AllocError>
    ensures { IfOk result (λ a. meant a local.new ≡ acts.cast program.now ty.now v (acts.goes_with local.old v local.old.stack) acts.invalid_cast world.now) }
{
    let found = find_cast(alloc, program, world, &v, ty)?;
    let answer = finish_cast(found, v, local)?;
    Ok(answer)
}

fn test_value(
    alloc: Global,
    program: &Program,
    world: &World,
    ty: &Ty,
    v: Value,
    local: &mut Local,
) -> Result<Wanted, AllocError>
    ensures { IfOk result (λ a. meant a local.new ≡ acts.cast program.now ty.now v (acts.goes_with local.old v local.old.stack) (acts.goes_with local.old null local.old.stack) world.now) }
{
    let found = find_cast(alloc, program, world, &v, ty)?;
    let answer = finish_test(found, v, local)?;
    Ok(answer)
}

/// `castclass`
pub fn cast_class(
    alloc: Global,
    program: &Program,
    meaning: Option<&Meaning>,
    world: &World,
    local: &mut Local,
) -> Result<Wanted, AllocError>
    ensures { IfOk result (λ a. meant a local.new ≡ acts.on_type (option_copied meaning.entry) (λ t. acts.on_top local.old.stack (λ v rest. acts.cast program.now t v (acts.goes_with local.old v rest) acts.invalid_cast world.now))) }
{
    let Some(Meaning::OfType(ty)) = meaning else {
        return Ok(Wanted::Stuck);
    };
    match local.stack.pop() {
        None => Ok(Wanted::Stuck),
        Some(v) => {
            let answer = cast_value(alloc, program, world, ty, v, local)?;
            Ok(answer)
        }
    }
}

/// `isinst`
pub fn is_instance(
    alloc: Global,
    program: &Program,
    meaning: Option<&Meaning>,
    world: &World,
    local: &mut Local,
) -> Result<Wanted, AllocError>
    ensures { IfOk result (λ a. meant a local.new ≡ acts.on_type (option_copied meaning.entry) (λ t. acts.on_top local.old.stack (λ v rest. acts.cast program.now t v (acts.goes_with local.old v rest) (acts.goes_with local.old null rest) world.now))) }
{
    let Some(Meaning::OfType(ty)) = meaning else {
        return Ok(Wanted::Stuck);
    };
    match local.stack.pop() {
        None => Ok(Wanted::Stuck),
        Some(v) => {
            let answer = test_value(alloc, program, world, ty, v, local)?;
            Ok(answer)
        }
    }
}
