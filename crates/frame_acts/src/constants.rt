// Constants, and the stack's own instructions (ECMA-335, III.3.35, 3.40, 3.45, 3.54 and 4.16).

ghost use Rattle.std.specs.Prelude.{◌≡◌, ◌∷◌, [], IfOk};
ghost use Rattle.cil_model.specs.declared.value.Value.{I4 as four_bytes, I8 as eight_bytes, Null as null};
ghost use Rattle.std.specs.Option.{option_copied};
ghost use Rattle.cil_model.specs.declared.value.Value.{Text as text};
ghost use Rattle.cil_semantics.specs.Acts as acts;
ghost use Rattle.frame_acts.specs.Meant.{meant};

use crate::stack::push;
use crate::wanted::Wanted;
use cil_base::Units;
use cil_model::{Meaning, Operand, Value};
use cil_semantics::Local;
use run_values::copied_value;
use std::alloc::{AllocError, Global};

/// `ldc.i4`. A constant that doesn't lie in four bytes stands in no body that was read; it is
/// answered as want of memory.
pub fn load_int(operand: &Operand, local: &mut Local) -> Result<Wanted, AllocError>
    ensures { IfOk result (λ a. meant a local.new ≡ acts.push_int four_bytes operand.now local.old) }
{
    let Operand::Int(z) = operand else {
        return Ok(Wanted::Stuck);
    };
    match i32::try_from(*z) {
        Ok(small) => {
            let answer = push(Value::I4(small), local)?;
            Ok(answer)
        }
        Err(_) => Err(AllocError),
    }
}

/// `ldc.i8`
pub fn load_long(operand: &Operand, local: &mut Local) -> Result<Wanted, AllocError>
    ensures { IfOk result (λ a. meant a local.new ≡ acts.push_int eight_bytes operand.now local.old) }
{
    let Operand::Int(z) = operand else {
        return Ok(Wanted::Stuck);
    };
    let answer = push(Value::I8(*z), local)?;
    Ok(answer)
}

/// `ldnull`
pub fn load_null(local: &mut Local) -> Result<Wanted, AllocError>
    ensures { IfOk result (λ a. meant a local.new ≡ acts.goes_with local.old null local.old.stack) }
{
    let answer = push(Value::Null, local)?;
    Ok(answer)
}

fn push_text(alloc: Global, units: &Units, local: &mut Local) -> Result<Wanted, AllocError>
    ensures { IfOk result (λ a. meant a local.new ≡ acts.goes_with local.old (text units.now) local.old.stack) }
{
    let copy = Units::from_slice(alloc, units.as_slice())?;
    let answer = push(Value::Text(copy), local)?;
    Ok(answer)
}

/// `ldstr`
pub fn load_text(
    alloc: Global,
    meaning: Option<&Meaning>,
    local: &mut Local,
) -> Result<Wanted, AllocError>
    ensures { IfOk result (λ a. meant a local.new ≡ acts.if_some (acts.text_in (option_copied meaning.entry)) (λ v. acts.goes_with local.old v local.old.stack)) }
{
    match meaning {
        Some(Meaning::OfText(units)) => {
            let answer = push_text(alloc, units, local)?;
            Ok(answer)
        }
        _ => Ok(Wanted::Stuck),
    }
}

fn push_both(value: Value, copy: Value, local: &mut Local) -> Result<Wanted, AllocError>
    ensures { IfOk result (λ a. meant a local.new ≡ acts.goes_with local.old copy (value ∷ local.old.stack)) }
{
    local.stack.push(value)?;
    let answer = push(copy, local)?;
    Ok(answer)
}

fn push_twice(alloc: Global, value: Value, local: &mut Local) -> Result<Wanted, AllocError>
    ensures { IfOk result (λ a. meant a local.new ≡ acts.goes_with local.old value (value ∷ local.old.stack)) }
{
    let copy = copied_value(alloc, &value)?;
    let answer = push_both(value, copy, local)?;
    Ok(answer)
}

/// `dup`
pub fn duplicate(alloc: Global, local: &mut Local) -> Result<Wanted, AllocError>
    ensures { IfOk result (λ a. meant a local.new ≡ acts.on_top local.old.stack (λ v rest. acts.goes_with local.old v (v ∷ rest))) }
{
    match local.stack.pop() {
        None => Ok(Wanted::Stuck),
        Some(value) => {
            let answer = push_twice(alloc, value, local)?;
            Ok(answer)
        }
    }
}

/// `pop`
pub fn pop(local: &mut Local) -> Wanted
    ensures { meant result local.new ≡ acts.on_top local.old.stack (λ v rest. acts.Act.GoOn [] (record local.old { stack = rest })) }
{
    match local.stack.pop() {
        Some(_) => Wanted::GoOn,
        None => Wanted::Stuck,
    }
}
