// What ForAll and Exists try next (Code Contracts User Manual, section 2.7).

ghost use Rattle.std.specs.Prelude.{◌≡◌, IfOk};
ghost use Rattle.cil_semantics.specs.Frames.{next_try};
ghost use Rattle.cil_semantics.specs.declared.state.Remaining.TheVariants as remaining;

use cil_model::Value;
use cil_semantics::{Remaining, World};
use run_heap::object_of;
use run_values::copied_value;
use std::alloc::{AllocError, Global};

fn next_element(
    alloc: Global,
    world: &World,
    array: u32,
    place: u32,
) -> Result<Option<(Value, Remaining)>, AllocError>
    ensures { IfOk result (λ next. next ≡ next_try world.now (remaining.Elements array place)) }
{
    let Some(object) = object_of(world, array) else {
        return Ok(None);
    };
    let Some(cell) = object.cells.get(place as usize) else {
        return Ok(None);
    };
    let v = copied_value(alloc, &cell.value)?;
    match place.checked_add(1) {
        None => Err(AllocError),
        Some(behind) => Ok(Some((v, Remaining::Elements(array, behind)))),
    }
}

/// What ForAll and Exists try next, and what is left then; `None` where nothing is left. A place past four bytes is answered as want of
/// memory.
pub fn next_try(
    alloc: Global,
    world: &World,
    left: Remaining,
) -> Result<Option<(Value, Remaining)>, AllocError>
    ensures { IfOk result (λ next. next ≡ next_try world.now left) }
{
    match left {
        Remaining::Range(from, to) => {
            if from < to {
                Ok(Some((Value::I4(from), Remaining::Range(from + 1, to))))
            } else {
                Ok(None)
            }
        }
        Remaining::Elements(array, place) => next_element(alloc, world, array, place),
    }
}
