// Loads from arrays, and pointers to their items (ECMA-335, III.4.7 to 4.9).

ghost use Rattle.std.specs.Prelude.{◌≡◌, ◌∷◌, [], IfOk};
ghost use Rattle.std.specs.Option.{option_copied};
ghost use Rattle.cil_model.specs.declared.value.Pointer.{Pointer as PointerOf};
ghost use Rattle.cil_model.specs.declared.value.Value.{Ptr as pointer};
ghost use Rattle.cil_semantics.specs.Acts as acts;
ghost use Rattle.cil_semantics.specs.Places.{storage};
ghost use Rattle.cil_semantics.specs.declared.Local.{Local as LocalOf};
ghost use Rattle.frame_acts.specs.Meant.{meant};
ghost use Rattle.item_acts.specs.Found.{item_act, items_of};

use crate::items::{ItemPlace, item_at, item_type_of};
use cil_model::{Meaning, Program, Value};
use cil_semantics::{Local, World};
use frame_acts::{Wanted, pop_two, push};
use il_opcodes::Storage;
use run_heap::inside;
use run_numbers::Exception;
use run_values::storage_of;
use sqlite_items::Boxed;
use std::alloc::{AllocError, Global};

fn push_item(
    alloc: Global,
    k: u32,
    j: u32,
    world: &World,
    local: &mut Local,
) -> Result<Wanted, AllocError>
    ensures { IfOk result (λ a. meant a local.new ≡ acts.if_some (items_of world.now k) (λ t. acts.goes_with local.old (pointer (PointerOf.Inside k (j ∷ []))) local.old.stack)) }
{
    let Some(_) = item_type_of(world, k) else {
        return Ok(Wanted::Stuck);
    };
    let q = inside(alloc, k, j)?;
    let answer = push(Value::Ptr(Boxed::new(alloc, q)?), local)?;
    Ok(answer)
}

fn point_to_place(
    alloc: Global,
    place: ItemPlace,
    world: &World,
    local: &mut Local,
) -> Result<Wanted, AllocError>
    ensures { IfOk result (λ a. meant a local.new ≡ item_act place world.now (λ q t. acts.goes_with local.old (pointer q) local.old.stack)) }
{
    match place {
        ItemPlace::Null => Ok(Wanted::Raise(Exception::NullReference)),
        ItemPlace::OutOfRange => Ok(Wanted::Raise(Exception::OutOfRange)),
        ItemPlace::Stuck => Ok(Wanted::Stuck),
        ItemPlace::At(k, j) => {
            let answer = push_item(alloc, k, j, world, local)?;
            Ok(answer)
        }
    }
}

/// `ldelema`
pub fn point_to_item(alloc: Global, world: &World, local: &mut Local) -> Result<Wanted, AllocError>
    ensures { IfOk result (λ a. meant a local.new ≡ acts.on_two local.old.stack (λ a n rest. acts.on_item world.now a n (λ q t. acts.goes_with local.old (pointer q) rest))) }
{
    let Some(two) = pop_two(&mut local.stack) else {
        return Ok(Wanted::Stuck);
    };
    let place = item_at(world, &two.x, &two.y)?;
    let answer = point_to_place(alloc, place, world, local)?;
    Ok(answer)
}

fn load_at(
    alloc: Global,
    k: u32,
    j: u32,
    storage: Storage,
    world: &World,
) -> Result<Wanted, AllocError>
    ensures { (l : LocalOf) → IfOk result (λ a. meant a l ≡ acts.if_some (items_of world.now k) (λ t. acts.Act.Load (PointerOf.Inside k (j ∷ [])) storage l)) }
{
    let Some(_) = item_type_of(world, k) else {
        return Ok(Wanted::Stuck);
    };
    Ok(Wanted::Load(inside(alloc, k, j)?, storage))
}

fn load_place(
    alloc: Global,
    place: ItemPlace,
    storage: Storage,
    world: &World,
) -> Result<Wanted, AllocError>
    ensures { (l : LocalOf) → IfOk result (λ a. meant a l ≡ item_act place world.now (λ q t. acts.Act.Load q storage l)) }
{
    match place {
        ItemPlace::Null => Ok(Wanted::Raise(Exception::NullReference)),
        ItemPlace::OutOfRange => Ok(Wanted::Raise(Exception::OutOfRange)),
        ItemPlace::Stuck => Ok(Wanted::Stuck),
        ItemPlace::At(k, j) => {
            let answer = load_at(alloc, k, j, storage, world)?;
            Ok(answer)
        }
    }
}

/// `ldelem` of a kind.
pub fn load_element(
    alloc: Global,
    storage: Storage,
    world: &World,
    local: &mut Local,
) -> Result<Wanted, AllocError>
    ensures { IfOk result (λ a. meant a local.new ≡ acts.on_two local.old.stack (λ a n rest. acts.on_item world.now a n (λ q u. acts.Act.Load q storage (record local.old { stack = rest })))) }
{
    let Some(two) = pop_two(&mut local.stack) else {
        return Ok(Wanted::Stuck);
    };
    let place = item_at(world, &two.x, &two.y)?;
    let answer = load_place(alloc, place, storage, world)?;
    Ok(answer)
}

/// `ldelem` of a type.
pub fn load_typed_element(
    alloc: Global,
    program: &Program,
    meaning: Option<&Meaning>,
    world: &World,
    local: &mut Local,
) -> Result<Wanted, AllocError>
    ensures { IfOk result (λ a. meant a local.new ≡ acts.on_type (option_copied meaning.entry) (λ t. acts.on_two local.old.stack (λ a n rest. acts.on_item world.now a n (λ q u. acts.Act.Load q (storage program.now t) (record local.old { stack = rest }))))) }
{
    match meaning {
        Some(Meaning::OfType(ty)) => {
            let answer = load_element(alloc, storage_of(program, ty), world, local)?;
            Ok(answer)
        }
        _ => Ok(Wanted::Stuck),
    }
}
