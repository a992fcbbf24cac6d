// Boxes that are made (ECMA-335, III.4.1).

ghost use Rattle.std.specs.Prelude.{◌≡◌, ◌∷◌, [], IfOk};
ghost use Rattle.std.specs.Option.{option_copied};
ghost use Rattle.cil_semantics.specs.Acts as acts;
ghost use Rattle.cil_semantics.specs.Places.{is_reference};
ghost use Rattle.frame_acts.specs.Meant.{meant};

use cil_model::{Meaning, Program, Ty, Value};
use cil_semantics::{Cell, Cells, Local, Object, World};
use frame_acts::{Wanted, push};
use il_opcodes::Storage;
use run_heap::number_of_next;
use run_values::{storage_of, stored_by_type};
use std::alloc::{AllocError, Global};

fn is_of_references(storage: Storage) -> bool
    ensures { result ≡ is_reference storage }
{
    matches!(storage, Storage::Reference)
}

fn cells_of_one(alloc: Global, ty: &Ty, value: Value) -> Result<Cells, AllocError>
    ensures { IfOk result (λ cells. cells ≡ record { ty = ty.now; value = value } ∷ []) }
{
    let mut cells = Cells::with_capacity(alloc, 1)?;
    let ty = ty.copied(alloc)?;
    cells.push(Cell { ty, value })?;
    Ok(cells)
}

fn make_box(
    alloc: Global,
    ty: &Ty,
    value: Value,
    world: &World,
    local: &mut Local,
) -> Result<Wanted, AllocError>
    ensures { IfOk result (λ a. meant a local.new ≡ acts.goes_with_new world.now (record { ty = ty.now; cells = record { ty = ty.now; value = value } ∷ [] }) local.old local.old.stack) }
{
    let number = number_of_next(world)?;
    local.stack.push(Value::Obj(number))?;
    let cells = cells_of_one(alloc, ty, value)?;
    let ty = ty.copied(alloc)?;
    Ok(Wanted::Make(Object { ty, cells }))
}

fn box_value(
    alloc: Global,
    program: &Program,
    ty: &Ty,
    v: Value,
    world: &World,
    local: &mut Local,
) -> Result<Wanted, AllocError>
    ensures { IfOk result (λ a. meant a local.new ≡ acts.box program.now ty.now v local.old.stack world.now local.old) }
{
    if is_of_references(storage_of(program, ty)) {
        let answer = push(v, local)?;
        return Ok(answer);
    }
    match stored_by_type(alloc, program, ty, v)? {
        None => Ok(Wanted::Stuck),
        Some(left) => {
            let answer = make_box(alloc, ty, left, world, local)?;
            Ok(answer)
        }
    }
}

/// `box`
pub fn make_boxed(
    alloc: Global,
    program: &Program,
    meaning: Option<&Meaning>,
    world: &World,
    local: &mut Local,
) -> Result<Wanted, AllocError>
    ensures { IfOk result (λ a. meant a local.new ≡ acts.on_type (option_copied meaning.entry) (λ t. acts.on_top local.old.stack (λ v rest. acts.box program.now t v rest world.now local.old))) }
{
    let Some(Meaning::OfType(ty)) = meaning else {
        return Ok(Wanted::Stuck);
    };
    match local.stack.pop() {
        None => Ok(Wanted::Stuck),
        Some(v) => {
            let answer = box_value(alloc, program, ty, v, world, local)?;
            Ok(answer)
        }
    }
}
