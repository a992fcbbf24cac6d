// Where an index leads in an array (ECMA-335, III.4.7 to 4.9).

ghost use Rattle.std.specs.Prelude.{◌≡◌, ◌∷◌, [], length, option_and_then, Some, IfOk};
ghost use Rattle.std.specs.Option.{option_copied};
ghost use Rattle.cil_model.specs.declared.ty.Ty.{Ty as TyOf};
ghost use Rattle.cil_model.specs.declared.value.Pointer.{Pointer as PointerOf};
ghost use Rattle.cil_semantics.specs.Acts as acts;
ghost use Rattle.cil_semantics.specs.Acts.{Act};
ghost use Rattle.cil_semantics.specs.State.{object_at};
ghost use Rattle.cil_semantics.specs.declared.Object.{Object as ObjectOf};
ghost use Rattle.cil_semantics.specs.declared.World.{World as WorldOf};
ghost use Rattle.item_acts.specs.Found.{item_act, items_of};

use cil_model::{Ty, Value};
use cil_semantics::{Object, World};
use run_heap::object_of;
use run_numbers::{index_of, number_in};
use std::alloc::AllocError;

/// Where an index leads in an array: to a place in an object, or to an exception.
#[derive(Clone, Copy)]
pub enum ItemPlace {
    Null,
    OutOfRange,
    Stuck,
    At(u32, u32),
}

fn place_at(k: u32, count: usize, index: i64) -> Result<ItemPlace, AllocError>
    ensures { (w : WorldOf) (go : PointerOf → TyOf → Act) (t : TyOf) → items_of w k ≡ Some t → IfOk result (λ place. item_act place w go ≡ acts.at_index count index (λ j. go (PointerOf.Inside k (j ∷ [])) t)) }
{
    match u64::try_from(index) {
        Err(_) => Ok(ItemPlace::OutOfRange),
        Ok(j) => {
            if j < count as u64 {
                match u32::try_from(j) {
                    Ok(at) => Ok(ItemPlace::At(k, at)),
                    Err(_) => Err(AllocError),
                }
            } else {
                Ok(ItemPlace::OutOfRange)
            }
        }
    }
}

fn place_in(world: &World, k: u32, index: i64) -> Result<ItemPlace, AllocError>
    ensures { (go : PointerOf → TyOf → Act) → IfOk result (λ place. item_act place world.now go ≡ acts.if_some (object_at world.now k) (λ (o : ObjectOf). acts.if_some (acts.item_type o) (λ t. acts.at_index (length o.cells) index (λ j. go (PointerOf.Inside k (j ∷ [])) t)))) }
{
    let Some(found) = object_of(world, k) else {
        return Ok(ItemPlace::Stuck);
    };
    match &found.ty {
        Ty::Array(_) => {
            let place = place_at(k, found.cells.len(), index)?;
            Ok(place)
        }
        _ => Ok(ItemPlace::Stuck),
    }
}

/// Looks up an array's item. A place past four bytes is answered as want of memory.
pub fn item_at(world: &World, a: &Value, i: &Value) -> Result<ItemPlace, AllocError>
    ensures { (go : PointerOf → TyOf → Act) → IfOk result (λ place. item_act place world.now go ≡ acts.on_item world.now a.now i.now go) }
{
    let Some(index) = index_of(number_in(i)) else {
        return Ok(ItemPlace::Stuck);
    };
    match a {
        Value::Null => Ok(ItemPlace::Null),
        Value::Obj(k) => {
            let place = place_in(world, *k, index)?;
            Ok(place)
        }
        _ => Ok(ItemPlace::Stuck),
    }
}

fn item_type(object: &Object) -> Option<&Ty>
    ensures { option_copied result ≡ acts.item_type object.now }
{
    match &object.ty {
        Ty::Array(item) => Some(item.get()),
        _ => None,
    }
}

/// The type of an array's items.
pub fn item_type_of(world: &World, k: u32) -> Option<&Ty>
    ensures { option_copied result ≡ items_of world.now k }
{
    match object_of(world, k) {
        None => None,
        Some(object) => item_type(object),
    }
}
