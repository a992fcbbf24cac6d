// What is taken out of boxes (ECMA-335, III.4.32 and 4.33).

ghost use Rattle.std.specs.Prelude.{ℕ, ◌≡◌, ◌∷◌, [], if◌then◌else◌, slice_get, IfOk};
ghost use Rattle.std.specs.Option.{option_copied};
ghost use Rattle.cil_model.specs.declared.value.Pointer.{Pointer as PointerOf};
ghost use Rattle.cil_model.specs.declared.value.Value.{Ptr as pointer, out-Value};
ghost use Rattle.cil_semantics.specs.Acts as acts;
ghost use Rattle.cil_semantics.specs.Acts.{Act};
ghost use Rattle.cil_semantics.specs.Places.{is_reference, storage};
ghost use Rattle.cil_semantics.specs.State.{object_at};
ghost use Rattle.cil_semantics.specs.Types.{same_ty};
ghost use Rattle.cil_semantics.specs.declared.Cell.{Cell as CellOf};
ghost use Rattle.cil_semantics.specs.declared.Object.{Object as ObjectOf};
ghost use Rattle.frame_acts.specs.Meant.{meant};
ghost use Rattle.cast_acts.specs.Found.{box_act, first_cell};

use crate::casts::cast_value;
use cil_model::{Meaning, Program, Ty, Value};
use cil_semantics::{Cell, Local, World};
use frame_acts::{Wanted, push};
use il_opcodes::Storage;
use look_ups::is_same;
use run_heap::{inside, object_of};
use run_numbers::Exception;
use run_values::{copied_value, storage_of};
use sqlite_items::Boxed;
use std::alloc::{AllocError, Global};

/// What a reference is as a box of a type: the number of the object.
#[derive(Clone, Copy)]
pub enum BoxOf {
    Null,
    Other,
    Stuck,
    At(u32),
}

fn box_in(world: &World, ty: &Ty, k: u32) -> BoxOf
    ensures { (go : ℕ → CellOf → Act) → box_act result world.now go ≡ acts.if_some (object_at world.now k) (λ (o : ObjectOf). if same_ty o.ty ty.now then acts.if_some (slice_get o.cells 0) (go k) else acts.invalid_cast) }
{
    let Some(o) = object_of(world, k) else {
        return BoxOf::Stuck;
    };
    if !is_same(&o.ty, ty) {
        return BoxOf::Other;
    }
    match o.cells.get(0) {
        None => BoxOf::Stuck,
        Some(_) => BoxOf::At(k),
    }
}

/// Looks up the box that a value refers to.
fn box_of(world: &World, ty: &Ty, v: &Value) -> BoxOf
    ensures { (go : ℕ → CellOf → Act) → box_act result world.now go ≡ acts.unboxed world.now ty.now (out-Value v.now) go }
{
    match v {
        Value::Null => BoxOf::Null,
        Value::Obj(k) => box_in(world, ty, *k),
        Value::Text(_) => BoxOf::Other,
        _ => BoxOf::Stuck,
    }
}

fn first_cell(world: &World, k: u32) -> Option<&Cell>
    ensures { option_copied result ≡ first_cell world.now k }
{
    match object_of(world, k) {
        None => None,
        Some(o) => o.cells.get(0),
    }
}

fn is_of_references(storage: Storage) -> bool
    ensures { result ≡ is_reference storage }
{
    matches!(storage, Storage::Reference)
}

fn push_inside(
    alloc: Global,
    k: u32,
    world: &World,
    local: &mut Local,
) -> Result<Wanted, AllocError>
    ensures { IfOk result (λ a. meant a local.new ≡ acts.if_some (first_cell world.now k) (λ c. acts.goes_with local.old (pointer (PointerOf.Inside k (0 ∷ []))) local.old.stack)) }
{
    let Some(_) = first_cell(world, k) else {
        return Ok(Wanted::Stuck);
    };
    let q = inside(alloc, k, 0)?;
    let answer = push(Value::Ptr(Boxed::new(alloc, q)?), local)?;
    Ok(answer)
}

fn point_into(
    alloc: Global,
    found: BoxOf,
    world: &World,
    local: &mut Local,
) -> Result<Wanted, AllocError>
    ensures { IfOk result (λ a. meant a local.new ≡ box_act found world.now (λ k c. acts.goes_with local.old (pointer (PointerOf.Inside k (0 ∷ []))) local.old.stack)) }
{
    match found {
        BoxOf::Null => Ok(Wanted::Raise(Exception::NullReference)),
        BoxOf::Other => Ok(Wanted::Raise(Exception::InvalidCast)),
        BoxOf::Stuck => Ok(Wanted::Stuck),
        BoxOf::At(k) => {
            let answer = push_inside(alloc, k, world, local)?;
            Ok(answer)
        }
    }
}

/// `unbox`
pub fn unbox(
    alloc: Global,
    program: &Program,
    meaning: Option<&Meaning>,
    world: &World,
    local: &mut Local,
) -> Result<Wanted, AllocError>
    ensures { IfOk result (λ a. meant a local.new ≡ acts.on_type (option_copied meaning.entry) (λ t. acts.on_top local.old.stack (λ v rest. acts.unbox program.now world.now t v local.old rest))) }
{
    let Some(Meaning::OfType(ty)) = meaning else {
        return Ok(Wanted::Stuck);
    };
    let Some(v) = local.stack.pop() else {
        return Ok(Wanted::Stuck);
    };
    if is_of_references(storage_of(program, ty)) {
        return Ok(Wanted::Stuck);
    }
    let answer = point_into(alloc, box_of(world, ty, &v), world, local)?;
    Ok(answer)
}

fn push_first(alloc: Global, k: u32, world: &World, local: &mut Local) -> Result<Wanted, AllocError>
    ensures { IfOk result (λ a. meant a local.new ≡ acts.if_some (first_cell world.now k) (λ (c : CellOf). acts.goes_with local.old c.value local.old.stack)) }
{
    let Some(cell) = first_cell(world, k) else {
        return Ok(Wanted::Stuck);
    };
    let copy = copied_value(alloc, &cell.value)?;
    let answer = push(copy, local)?;
    Ok(answer)
}

fn push_boxed(
    alloc: Global,
    found: BoxOf,
    world: &World,
    local: &mut Local,
) -> Result<Wanted, AllocError>
    ensures { IfOk result (λ a. meant a local.new ≡ box_act found world.now (λ k (c : CellOf). acts.goes_with local.old c.value local.old.stack)) }
{
    match found {
        BoxOf::Null => Ok(Wanted::Raise(Exception::NullReference)),
        BoxOf::Other => Ok(Wanted::Raise(Exception::InvalidCast)),
        BoxOf::Stuck => Ok(Wanted::Stuck),
        BoxOf::At(k) => {
            let answer = push_first(alloc, k, world, local)?;
            Ok(answer)
        }
    }
}

fn unbox_value(
    alloc: Global,
    program: &Program,
    world: &World,
    ty: &Ty,
    v: Value,
    local: &mut Local,
) -> Result<Wanted, AllocError>
    ensures { IfOk result (λ a. meant a local.new ≡ (if is_reference (storage program.now ty.now) then acts.cast program.now ty.now v (acts.goes_with local.old v local.old.stack) acts.invalid_cast world.now else acts.unboxed world.now ty.now (out-Value v) (λ k (c : CellOf). acts.goes_with local.old c.value local.old.stack))) }
{
    if is_of_references(storage_of(program, ty)) {
        let answer = cast_value(alloc, program, world, ty, v, local)?;
        return Ok(answer);
    }
    let answer = push_boxed(alloc, box_of(world, ty, &v), world, local)?;
    Ok(answer)
}

/// `unbox.any`
pub fn unbox_any(
    alloc: Global,
    program: &Program,
    meaning: Option<&Meaning>,
    world: &World,
    local: &mut Local,
) -> Result<Wanted, AllocError>
    ensures { IfOk result (λ a. meant a local.new ≡ acts.on_type (option_copied meaning.entry) (λ t. acts.on_top local.old.stack (λ v rest. if is_reference (storage program.now t) then acts.cast program.now t v (acts.goes_with local.old v rest) acts.invalid_cast world.now else acts.unboxed world.now t (out-Value v) (λ k (c : CellOf). acts.goes_with local.old c.value rest)))) }
{
    let Some(Meaning::OfType(ty)) = meaning else {
        return Ok(Wanted::Stuck);
    };
    match local.stack.pop() {
        None => Ok(Wanted::Stuck),
        Some(v) => {
            let answer = unbox_value(alloc, program, world, ty, v, local)?;
            Ok(answer)
        }
    }
}
