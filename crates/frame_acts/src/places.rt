// Arguments and locals (ECMA-335, III.3.38, 3.39, 3.43, 3.44, 3.61 and 3.63).

ghost use Rattle.std.specs.Prelude.{◌≡◌, option_and_then, option_map, slice_get, slice_set, IfOk};
ghost use Rattle.cil_model.specs.declared.value.Value.{Ptr as pointer};
ghost use Rattle.cil_semantics.specs.Acts as acts;
ghost use Rattle.cil_semantics.specs.Places.{set_cell};
ghost use Rattle.cil_semantics.specs.Tokens.{Here};
ghost use Rattle.frame_acts.specs.Meant.{meant};
ghost use Rattle.frame_acts.specs.Stored.{cells_if};

use crate::stack::push;
use crate::wanted::Wanted;
use cil_base::U32s;
use cil_model::{Operand, Pointer, Program, Value};
use cil_semantics::{Cells, Local};
use run_values::{copied_value, stored_by_type};
use sqlite_items::Boxed;
use std::alloc::{AllocError, Global};

fn push_copy(alloc: Global, value: &Value, local: &mut Local) -> Result<Wanted, AllocError>
    ensures { IfOk result (λ a. meant a local.new ≡ acts.goes_with local.old value.now local.old.stack) }
{
    let copy = copied_value(alloc, value)?;
    let answer = push(copy, local)?;
    Ok(answer)
}

/// `ldarg`
pub fn load_argument(
    alloc: Global,
    operand: &Operand,
    local: &mut Local,
) -> Result<Wanted, AllocError>
    ensures { IfOk result (λ a. meant a local.new ≡ acts.load_argument operand.now local.old) }
{
    let Operand::Index(i) = operand else {
        return Ok(Wanted::Stuck);
    };
    let Some(cell) = local.args.get(*i as usize) else {
        return Ok(Wanted::Stuck);
    };
    let copy = copied_value(alloc, &cell.value)?;
    let answer = push(copy, local)?;
    Ok(answer)
}

/// `ldloc`
pub fn load_local(alloc: Global, operand: &Operand, local: &mut Local) -> Result<Wanted, AllocError>
    ensures { IfOk result (λ a. meant a local.new ≡ acts.load_local operand.now local.old) }
{
    let Operand::Index(i) = operand else {
        return Ok(Wanted::Stuck);
    };
    let Some(cell) = local.locals.get(*i as usize) else {
        return Ok(Wanted::Stuck);
    };
    let copy = copied_value(alloc, &cell.value)?;
    let answer = push(copy, local)?;
    Ok(answer)
}

// Stores a value in a place of a list, and answers whether it was of the place's kind.
fn put(
    alloc: Global,
    program: &Program,
    cells: &mut Cells,
    at: usize,
    value: Value,
) -> Result<bool, AllocError>
    ensures { IfOk result (λ done. cells_if done cells.new ≡ option_map (slice_set cells.old at) (option_and_then (set_cell program.now value) (slice_get cells.old at))) }
{
    let Some(cell) = cells.get(at) else {
        return Ok(false);
    };
    match stored_by_type(alloc, program, &cell.ty, value)? {
        None => Ok(false),
        Some(left) => {
            cells.put(at, left);
            Ok(true)
        }
    }
}

/// `starg`
pub fn store_argument(
    alloc: Global,
    program: &Program,
    operand: &Operand,
    local: &mut Local,
) -> Result<Wanted, AllocError>
    ensures { IfOk result (λ a. meant a local.new ≡ acts.store_argument program.now operand.now local.old) }
{
    let Operand::Index(i) = operand else {
        return Ok(Wanted::Stuck);
    };
    let Some(value) = local.stack.pop() else {
        return Ok(Wanted::Stuck);
    };
    if put(alloc, program, &mut local.args, *i as usize, value)? {
        Ok(Wanted::GoOn)
    } else {
        Ok(Wanted::Stuck)
    }
}

/// `stloc`
pub fn store_local(
    alloc: Global,
    program: &Program,
    operand: &Operand,
    local: &mut Local,
) -> Result<Wanted, AllocError>
    ensures { IfOk result (λ a. meant a local.new ≡ acts.store_local program.now operand.now local.old) }
{
    let Operand::Index(i) = operand else {
        return Ok(Wanted::Stuck);
    };
    let Some(value) = local.stack.pop() else {
        return Ok(Wanted::Stuck);
    };
    if put(alloc, program, &mut local.locals, *i as usize, value)? {
        Ok(Wanted::GoOn)
    } else {
        Ok(Wanted::Stuck)
    }
}

fn push_pointer(alloc: Global, q: Pointer, local: &mut Local) -> Result<Wanted, AllocError>
    ensures { IfOk result (λ a. meant a local.new ≡ acts.goes_with local.old (pointer q) local.old.stack) }
{
    let boxed = Boxed::new(alloc, q)?;
    let answer = push(Value::Ptr(boxed), local)?;
    Ok(answer)
}

/// `ldarga`, in the frame of a number, which runs a method.
pub fn point_to_argument(
    alloc: Global,
    number: u64,
    method: u32,
    operand: &Operand,
    local: &mut Local,
) -> Result<Wanted, AllocError>
    ensures { (here : Here) → here.number ≡ number → here.method ≡ method → IfOk result (λ a. meant a local.new ≡ acts.point_to_argument here operand.now local.old) }
{
    let Operand::Index(i) = operand else {
        return Ok(Wanted::Stuck);
    };
    let q = Pointer::Arg {
        frame: number,
        method,
        index: *i,
        path: U32s::new(alloc),
    };
    let answer = push_pointer(alloc, q, local)?;
    Ok(answer)
}

/// `ldloca`, in the frame of a number, which runs a method.
pub fn point_to_local(
    alloc: Global,
    number: u64,
    method: u32,
    operand: &Operand,
    local: &mut Local,
) -> Result<Wanted, AllocError>
    ensures { (here : Here) → here.number ≡ number → here.method ≡ method → IfOk result (λ a. meant a local.new ≡ acts.point_to_local here operand.now local.old) }
{
    let Operand::Index(i) = operand else {
        return Ok(Wanted::Stuck);
    };
    let q = Pointer::Local {
        frame: number,
        method,
        index: *i,
        path: U32s::new(alloc),
    };
    let answer = push_pointer(alloc, q, local)?;
    Ok(answer)
}
