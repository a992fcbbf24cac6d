// Stores in arrays (ECMA-335, III.4.26 and 4.27).

ghost use Rattle.std.specs.Prelude.{◌≡◌, ◌∷◌, ◌<◌, ◌&&◌, [], not, if◌then◌else◌, length, IfOk, MatchOption};
ghost use Rattle.std.specs.Option.{option_copied};
ghost use Rattle.cil_model.specs.declared.value.Pointer.{Pointer as PointerOf};
ghost use Rattle.cil_semantics.specs.Acts as acts;
ghost use Rattle.cil_semantics.specs.Acts.{Act};
ghost use Rattle.cil_semantics.specs.Places.{is_reference, storage, stored, stored_in};
ghost use Rattle.cil_semantics.specs.declared.Local.{Local as LocalOf};
ghost use Rattle.frame_acts.specs.Meant.{meant};
ghost use Rattle.item_acts.specs.Found.{item_act, items_of, mismatch_act};

use crate::items::{ItemPlace, item_at, item_type_of};
use cil_model::{Meaning, Program, Ty, Value};
use cil_semantics::{Local, Stack, World};
use frame_acts::{Two, Wanted, pop_two};
use il_opcodes::Storage;
use run_heap::{inside, is_of_type};
use run_numbers::Exception;
use run_values::{storage_of, stored_as, stored_by_type};
use std::alloc::{AllocError, Global};

/// Whether a value may go into an array of a type of items: null, or of a sub of it.
fn fits(
    alloc: Global,
    program: &Program,
    world: &World,
    ty: &Ty,
    v: &Value,
) -> Result<bool, AllocError>
    ensures { IfOk result (λ is. is ≡ acts.fits_item program.now world.now ty.now v.now) }
{
    match v {
        Value::Null => Ok(true),
        _ => match is_of_type(alloc, program, world, v, ty)? {
            None => Ok(true),
            Some(is) => Ok(is),
        },
    }
}

// Whether a value is a reference to what is of no sub of the type of items.
fn mismatches(
    alloc: Global,
    program: &Program,
    world: &World,
    ty: &Ty,
    v: &Value,
) -> Result<bool, AllocError>
    ensures { IfOk result (λ is. is ≡ (is_reference (storage program.now ty.now) && not (acts.fits_item program.now world.now ty.now v.now))) }
{
    match storage_of(program, ty) {
        Storage::Reference => Ok(!fits(alloc, program, world, ty, v)?),
        _ => Ok(false),
    }
}

fn store_some(alloc: Global, k: u32, j: u32, x: Value, mismatch: bool) -> Result<Wanted, AllocError>
    ensures { (l : LocalOf) → IfOk result (λ a. meant a l ≡ (if mismatch then mismatch_act else Act.Store (PointerOf.Inside k (j ∷ [])) x l)) }
{
    if mismatch {
        Ok(Wanted::Raise(Exception::Mismatch))
    } else {
        Ok(Wanted::Store(inside(alloc, k, j)?, x))
    }
}

fn store_at(
    alloc: Global,
    program: &Program,
    world: &World,
    k: u32,
    j: u32,
    left: Option<Value>,
) -> Result<Wanted, AllocError>
    ensures { (l : LocalOf) → IfOk result (λ a. meant a l ≡ acts.if_some (items_of world.now k) (λ t. acts.if_some left (λ x. if is_reference (storage program.now t) && not (acts.fits_item program.now world.now t x) then mismatch_act else Act.Store (PointerOf.Inside k (j ∷ [])) x l))) }
{
    let Some(ty) = item_type_of(world, k) else {
        return Ok(Wanted::Stuck);
    };
    let Some(x) = left else {
        return Ok(Wanted::Stuck);
    };
    let mismatch = mismatches(alloc, program, world, ty, &x)?;
    let answer = store_some(alloc, k, j, x, mismatch)?;
    Ok(answer)
}

fn store_place(
    alloc: Global,
    program: &Program,
    world: &World,
    place: ItemPlace,
    left: Option<Value>,
) -> Result<Wanted, AllocError>
    ensures { (l : LocalOf) → IfOk result (λ a. meant a l ≡ item_act place world.now (λ q t. acts.if_some left (λ x. if is_reference (storage program.now t) && not (acts.fits_item program.now world.now t x) then mismatch_act else Act.Store q x l))) }
{
    match place {
        ItemPlace::Null => Ok(Wanted::Raise(Exception::NullReference)),
        ItemPlace::OutOfRange => Ok(Wanted::Raise(Exception::OutOfRange)),
        ItemPlace::Stuck => Ok(Wanted::Stuck),
        ItemPlace::At(k, j) => {
            let answer = store_at(alloc, program, world, k, j, left)?;
            Ok(answer)
        }
    }
}

/// An array, an index and the value on top.
#[derive(Drop)]
struct Popped {
    at: Two,
    value: Value,
}

fn pop_at(stack: &mut Stack, value: Value) -> Option<Popped>
    ensures { MatchOption result (length stack.old < 2) (λ s. (stack.old ≡ s.at.y ∷ s.at.x ∷ stack.new) × (s.value ≡ value)) }
{
    match pop_two(stack) {
        None => None,
        Some(at) => Some(Popped { at, value }),
    }
}

fn pop_stored(stack: &mut Stack) -> Option<Popped>
    ensures { MatchOption result (length stack.old < 3) (λ s. stack.old ≡ s.value ∷ s.at.y ∷ s.at.x ∷ stack.new) }
{
    match stack.pop() {
        None => None,
        Some(value) => pop_at(stack, value),
    }
}

/// `stelem` of a kind.
pub fn store_element(
    alloc: Global,
    program: &Program,
    storage: Storage,
    world: &World,
    local: &mut Local,
) -> Result<Wanted, AllocError>
    ensures { IfOk result (λ a. meant a local.new ≡ acts.store_item program.now world.now local.old (stored storage) local.old.stack) }
{
    let Some(popped) = pop_stored(&mut local.stack) else {
        return Ok(Wanted::Stuck);
    };
    let place = item_at(world, &popped.at.x, &popped.at.y)?;
    let Popped { value, .. } = popped;
    let answer = store_place(alloc, program, world, place, stored_as(storage, value))?;
    Ok(answer)
}

fn store_typed(
    alloc: Global,
    program: &Program,
    ty: &Ty,
    world: &World,
    popped: Popped,
) -> Result<Wanted, AllocError>
    ensures { (l : LocalOf) → IfOk result (λ a. meant a l ≡ acts.put_item program.now world.now l (stored_in program.now ty.now) popped.at.x popped.at.y popped.value l.stack) }
{
    let place = item_at(world, &popped.at.x, &popped.at.y)?;
    let Popped { value, .. } = popped;
    let left = stored_by_type(alloc, program, ty, value)?;
    let answer = store_place(alloc, program, world, place, left)?;
    Ok(answer)
}

/// `stelem` of a type.
pub fn store_typed_element(
    alloc: Global,
    program: &Program,
    meaning: Option<&Meaning>,
    world: &World,
    local: &mut Local,
) -> Result<Wanted, AllocError>
    ensures { IfOk result (λ a. meant a local.new ≡ acts.on_type (option_copied meaning.entry) (λ t. acts.store_item program.now world.now local.old (stored_in program.now t) local.old.stack)) }
{
    let Some(Meaning::OfType(ty)) = meaning else {
        return Ok(Wanted::Stuck);
    };
    match pop_stored(&mut local.stack) {
        None => Ok(Wanted::Stuck),
        Some(popped) => {
            let answer = store_typed(alloc, program, ty, world, popped)?;
            Ok(answer)
        }
    }
}
