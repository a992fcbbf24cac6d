// Fields of objects, of structs in places and of structs on the stack (ECMA-335, III.4.10, 4.11 and 4.28).

ghost use Rattle.std.specs.Prelude.{◌≡◌, ◌++◌, ◌∷◌, [], if◌then◌else◌, None, slice_get, IfOk};
ghost use Rattle.std.specs.Option.{option_copied};
ghost use Rattle.cil_model.specs.declared.value.Value.{Value as ValueOf, Ptr as pointer, out-Value};
ghost use Rattle.cil_model.specs.declared.value.Pointer.{Pointer as PointerOf};
ghost use Rattle.cil_semantics.specs.Acts as acts;
ghost use Rattle.cil_semantics.specs.Acts.{Act};
ghost use Rattle.cil_semantics.specs.Places.{field_place, fields_in, is_reference, storage};
ghost use Rattle.cil_semantics.specs.declared.Local.{Local as LocalOf};
ghost use Rattle.il_opcodes.specs.declared.class.Storage.{Storage};
ghost use Rattle.frame_acts.specs.Meant.{meant};
ghost use Rattle.field_acts.specs.Found.{field_act};

use cil_model::{Meaning, Pointer, Program, Ty, Value};
use cil_semantics::{Local, Object, World};
use frame_acts::{Two, Wanted, pop_two, push};
use il_opcodes::Storage;
use run_heap::{inside, object_of};
use run_numbers::Exception;
use run_values::{copied_value, place_of_field, storage_of};
use sqlite_items::Boxed;
use std::alloc::{AllocError, Global};

/// A field's place, or a value that is no place of it.
#[derive(Drop)]
pub enum FieldPlace {
    Null,
    Stuck,
    At(Pointer),
    Other(Value),
}

/// The pointer to a part of what it leads to.
fn extended(q: Pointer, part: u32) -> Result<Pointer, AllocError>
    ensures { IfOk result (λ r. r ≡ acts.extended part q) }
{
    let mut place = q;
    match &mut place {
        Pointer::Arg { path, .. } => path.push(part)?,
        Pointer::Local { path, .. } => path.push(part)?,
        Pointer::Inside { path, .. } => path.push(part)?,
        Pointer::Static { path, .. } => path.push(part)?,
    }
    Ok(place)
}

// The place of a field of an object, in its own type, which isn't a boxed struct's.
fn place_in_object(
    alloc: Global,
    program: &Program,
    o: &Object,
    field: u32,
) -> Result<Option<usize>, AllocError>
    ensures { IfOk result (λ place. place ≡ (if is_reference (storage program.now o.now.ty) then field_place program.now o.now.ty field else None)) }
{
    match storage_of(program, &o.ty) {
        Storage::Reference => {
            let place = place_of_field(alloc, program, &o.ty, field)?;
            Ok(place)
        }
        _ => Ok(None),
    }
}

// A place past four bytes is answered as want of memory.
fn part_number(place: usize) -> Result<u32, AllocError>
    ensures { IfOk result (λ part. part ≡ place) }
{
    match u32::try_from(place) {
        Ok(part) => Ok(part),
        Err(_) => Err(AllocError),
    }
}

fn in_object(
    alloc: Global,
    program: &Program,
    world: &World,
    k: u32,
    field: u32,
) -> Result<FieldPlace, AllocError>
    ensures { (go : PointerOf → Act) (other : ValueOf → Act) → IfOk result (λ found. field_act found go other ≡ acts.if_some (acts.field_of_object program.now world.now k field) (λ i. go (PointerOf.Inside k (i ∷ [])))) }
{
    let Some(o) = object_of(world, k) else {
        return Ok(FieldPlace::Stuck);
    };
    match place_in_object(alloc, program, o, field)? {
        None => Ok(FieldPlace::Stuck),
        Some(place) => Ok(FieldPlace::At(inside(alloc, k, part_number(place)?)?)),
    }
}

fn in_place(
    alloc: Global,
    program: &Program,
    owner: &Ty,
    field: u32,
    q: Pointer,
) -> Result<FieldPlace, AllocError>
    ensures { (go : PointerOf → Act) (other : ValueOf → Act) → IfOk result (λ found. field_act found go other ≡ acts.if_some (field_place program.now owner.now field) (λ i. go (acts.extended i q))) }
{
    match place_of_field(alloc, program, owner, field)? {
        None => Ok(FieldPlace::Stuck),
        Some(place) => Ok(FieldPlace::At(extended(q, part_number(place)?)?)),
    }
}

/// Looks up the place of a field, by what a value refers to.
fn find_place(
    alloc: Global,
    program: &Program,
    world: &World,
    owner: &Ty,
    field: u32,
    v: Value,
) -> Result<FieldPlace, AllocError>
    ensures { (go : PointerOf → Act) (other : ValueOf → Act) → IfOk result (λ found. field_act found go other ≡ acts.on_field program.now world.now owner.now field (out-Value v) go (other v)) }
{
    match v {
        Value::Null => Ok(FieldPlace::Null),
        Value::Obj(k) => {
            let found = in_object(alloc, program, world, k, field)?;
            Ok(found)
        }
        Value::Ptr(q) => {
            let found = in_place(alloc, program, owner, field, q.into_inner())?;
            Ok(found)
        }
        other => Ok(FieldPlace::Other(other)),
    }
}

fn push_part(alloc: Global, v: &Value, part: usize, local: &mut Local) -> Result<Wanted, AllocError>
    ensures { IfOk result (λ a. meant a local.new ≡ acts.if_some (slice_get (fields_in (out-Value v.now)) part) (λ x. acts.goes_with local.old x local.old.stack)) }
{
    let Value::Struct(parts) = v else {
        return Ok(Wanted::Stuck);
    };
    match parts.get(part) {
        None => Ok(Wanted::Stuck),
        Some(x) => {
            let copy = copied_value(alloc, x)?;
            let answer = push(copy, local)?;
            Ok(answer)
        }
    }
}

// A field of a struct on the stack.
fn push_field(
    alloc: Global,
    program: &Program,
    owner: &Ty,
    field: u32,
    v: &Value,
    local: &mut Local,
) -> Result<Wanted, AllocError>
    ensures { IfOk result (λ a. meant a local.new ≡ acts.field_of_value program.now owner.now field v.now local.old local.old.stack) }
{
    match place_of_field(alloc, program, owner, field)? {
        None => Ok(Wanted::Stuck),
        Some(part) => {
            let answer = push_part(alloc, v, part, local)?;
            Ok(answer)
        }
    }
}

fn load_found(
    alloc: Global,
    program: &Program,
    owner: &Ty,
    field: u32,
    found: FieldPlace,
    local: &mut Local,
) -> Result<Wanted, AllocError>
    ensures { IfOk result (λ a. meant a local.new ≡ field_act found (λ q. Act.Load q Storage.Anything local.old) (λ v. acts.field_of_value program.now owner.now field v local.old local.old.stack)) }
{
    match found {
        FieldPlace::Null => Ok(Wanted::Raise(Exception::NullReference)),
        FieldPlace::Stuck => Ok(Wanted::Stuck),
        FieldPlace::At(q) => Ok(Wanted::Load(q, Storage::Anything)),
        FieldPlace::Other(v) => {
            let answer = push_field(alloc, program, owner, field, &v, local)?;
            Ok(answer)
        }
    }
}

/// `ldfld`
pub fn load_field(
    alloc: Global,
    program: &Program,
    meaning: Option<&Meaning>,
    world: &World,
    local: &mut Local,
) -> Result<Wanted, AllocError>
    ensures { IfOk result (λ a. meant a local.new ≡ acts.load_field program.now (option_copied meaning.entry) world.now local.old) }
{
    let Some(Meaning::OfField { owner, field }) = meaning else {
        return Ok(Wanted::Stuck);
    };
    let Some(v) = local.stack.pop() else {
        return Ok(Wanted::Stuck);
    };
    let found = find_place(alloc, program, world, owner, *field, v)?;
    let answer = load_found(alloc, program, owner, *field, found, local)?;
    Ok(answer)
}

fn push_place(alloc: Global, found: FieldPlace, local: &mut Local) -> Result<Wanted, AllocError>
    ensures { IfOk result (λ a. meant a local.new ≡ field_act found (λ q. acts.goes_with local.old (pointer q) local.old.stack) (λ v. Act.Stuck)) }
{
    match found {
        FieldPlace::Null => Ok(Wanted::Raise(Exception::NullReference)),
        FieldPlace::Stuck => Ok(Wanted::Stuck),
        FieldPlace::At(q) => {
            let answer = push(Value::Ptr(Boxed::new(alloc, q)?), local)?;
            Ok(answer)
        }
        FieldPlace::Other(_) => Ok(Wanted::Stuck),
    }
}

/// `ldflda`
pub fn point_to_field(
    alloc: Global,
    program: &Program,
    meaning: Option<&Meaning>,
    world: &World,
    local: &mut Local,
) -> Result<Wanted, AllocError>
    ensures { IfOk result (λ a. meant a local.new ≡ acts.point_to_field program.now (option_copied meaning.entry) world.now local.old) }
{
    let Some(Meaning::OfField { owner, field }) = meaning else {
        return Ok(Wanted::Stuck);
    };
    let Some(v) = local.stack.pop() else {
        return Ok(Wanted::Stuck);
    };
    let found = find_place(alloc, program, world, owner, *field, v)?;
    let answer = push_place(alloc, found, local)?;
    Ok(answer)
}

fn store_found(found: FieldPlace, v: Value) -> Wanted
    ensures { (l : LocalOf) → meant result l ≡ field_act found (λ q. Act.Store q v l) (λ o. Act.Stuck) }
{
    match found {
        FieldPlace::Null => Wanted::Raise(Exception::NullReference),
        FieldPlace::Stuck => Wanted::Stuck,
        FieldPlace::At(q) => Wanted::Store(q, v),
        FieldPlace::Other(_) => Wanted::Stuck,
    }
}

/// `stfld`
pub fn store_field(
    alloc: Global,
    program: &Program,
    meaning: Option<&Meaning>,
    world: &World,
    local: &mut Local,
) -> Result<Wanted, AllocError>
    ensures { IfOk result (λ a. meant a local.new ≡ acts.store_field program.now (option_copied meaning.entry) world.now local.old) }
{
    let Some(Meaning::OfField { owner, field }) = meaning else {
        return Ok(Wanted::Stuck);
    };
    let Some(two) = pop_two(&mut local.stack) else {
        return Ok(Wanted::Stuck);
    };
    let Two { x, y } = two;
    let found = find_place(alloc, program, world, owner, *field, x)?;
    Ok(store_found(found, y))
}
