// Objects of the heap, and pointers into them (ECMA-335, I.12.3 and I.12.1.1.2).

ghost use Rattle.std.specs.Prelude.{◌≡◌, ◌∷◌, [], IfOk};
ghost use Rattle.std.specs.Option.{option_copied};
ghost use Rattle.cil_model.specs.declared.value.Pointer.{Pointer as PointerOf};
ghost use Rattle.cil_semantics.specs.State.{next_object, object_at};

use cil_base::U32s;
use cil_model::Pointer;
use cil_semantics::{Object, World};
use std::alloc::{AllocError, Global};

/// The object of a number, from 1.
pub fn object_of(world: &World, k: u32) -> Option<&Object>
    ensures { option_copied result ≡ object_at world.now k }
{
    if k == 0 {
        return None;
    }
    world.heap.get((k - 1) as usize)
}

/// The number of the next object. One past four bytes is answered as want of memory.
pub fn number_of_next(world: &World) -> Result<u32, AllocError>
    ensures { IfOk result (λ k. k ≡ next_object world.now) }
{
    match u32::try_from(world.heap.len()) {
        Err(_) => Err(AllocError),
        Ok(count) => match count.checked_add(1) {
            None => Err(AllocError),
            Some(k) => Ok(k),
        },
    }
}

/// The pointer to a place in an object.
pub fn inside(alloc: Global, k: u32, place: u32) -> Result<Pointer, AllocError>
    ensures { IfOk result (λ q. q ≡ PointerOf.Inside k (place ∷ [])) }
{
    let mut path = U32s::new(alloc);
    path.push(place)?;
    Ok(Pointer::Inside { object: k, path })
}
