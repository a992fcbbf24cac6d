// Static fields of closed types (ECMA-335, I.8.4.3 and II.10.5.3).

ghost use Rattle.std.specs.Prelude.{ℕ, ◌≡◌, ◌∷◌, ◌++◌, [], ◌<◌, false, filter, length, map, None, option_map, slice_get, slice_set, Some, IfOk};
ghost use Rattle.std.specs.Option.{option_copied};
ghost use Rattle.cil_model.specs.declared.ty.Ty.{Ty as TyOf};
ghost use Rattle.cil_semantics.specs.Frames.{cell_in, set_in, set_static, static_cells, static_path};
ghost use Rattle.cil_semantics.specs.Lookups.{field_of, type_of};
ghost use Rattle.cil_semantics.specs.Places.{default_cell, default_cells, place_of, static_layout};
ghost use Rattle.cil_semantics.specs.Types.{same_ty, under};
ghost use Rattle.cil_semantics.specs.Unwind.{find_statics, set_statics};
ghost use Rattle.cil_semantics.specs.declared.Statics.{Statics as StaticsOf};
ghost use Rattle.run_places.specs.Done.{statics_if, world_if};
ghost use Rattle.run_places.specs.Fields.{is_static_field};
ghost use Rattle.run_places.specs.Owners.{cells_of, owner_place, set_owner};

use crate::cells::{copied_some, put_in, read_in, stored_at};
use cil_model::{Program, Ty, Value};
use cil_semantics::{Cell, Cells, Statics, StaticsList, World};
use look_ups::{is_same, ty_under};
use run_values::new_default;
use std::alloc::{AllocError, Global};

#[tactic(auto, unfolding(cil_semantics::specs::Lookups::no_field))]
fn is_static(program: &Program, field: u32) -> bool
    ensures { result ≡ is_static_field program.now field }
{
    match program.fields.get(field as usize) {
        Some(desc) => desc.is_static,
        None => false,
    }
}

#[tactic(auto, unfolding(cil_semantics::specs::Lookups::contract_exception))]
fn fields_of(program: &Program, k: u32) -> &[u32]
    ensures { result.now ≡ (type_of program.now k).fields }
{
    match program.types.get(k as usize) {
        Some(desc) => desc.fields.as_slice(),
        None => &[],
    }
}

fn place_among(program: &Program, fields: &[u32], field: u32) -> Option<usize>
    ensures { (typed : ℕ → TyOf) → result ≡ place_of field (map (λ f. (f, typed f)) (filter (is_static_field program.now) fields.now)) }
{
    let mut count: usize = 0;
    for f in fields {
        if is_static(program, *f) {
            if *f == field {
                return Some(count);
            }
            count += 1;
        }
    }
    None
}

/// Where a static field stands among those of a closed type of the set; no other type has any.
pub fn place_of_static(program: &Program, ty: &Ty, field: u32) -> Option<usize>
    ensures { result ≡ place_of field (static_layout program.now ty.now) }
{
    match ty {
        Ty::Known(k) => place_among(program, fields_of(program, *k), field),
        Ty::Inst { ty, .. } => place_among(program, fields_of(program, *ty), field),
        _ => None,
    }
}

// The type of a field, where these stand for the parameters of its type.
#[tactic(auto, unfolding(cil_semantics::specs::Lookups::no_field))]
fn type_of_field(
    alloc: Global,
    program: &Program,
    args: &[Ty],
    field: u32,
) -> Result<Ty, AllocError>
    ensures { IfOk result (λ ty. ty ≡ under args.now [] (field_of program.now field).ty) }
{
    match program.fields.get(field as usize) {
        Some(desc) => ty_under(alloc, &desc.ty, args, &[]),
        None => Ok(Ty::Opaque),
    }
}

fn default_cell_of(
    alloc: Global,
    program: &Program,
    args: &[Ty],
    field: u32,
) -> Result<Cell, AllocError>
    ensures { IfOk result (λ c. c ≡ default_cell program.now (under args.now [] (field_of program.now field).ty)) }
{
    let ty = type_of_field(alloc, program, args, field)?;
    let cell = new_default(alloc, program, ty)?;
    Ok(cell)
}

fn cells_of_fields(
    alloc: Global,
    program: &Program,
    args: &[Ty],
    fields: &[u32],
) -> Result<Cells, AllocError>
    ensures { IfOk result (λ cells. cells ≡ map (λ f. default_cell program.now (under args.now [] (field_of program.now f).ty)) (filter (is_static_field program.now) fields.now)) }
{
    let mut cells = Cells::new(alloc);
    for field in fields {
        if is_static(program, *field) {
            cells.push(default_cell_of(alloc, program, args, *field)?)?;
        }
    }
    Ok(cells)
}

/// The static fields of a closed type at their default values.
pub fn default_statics(alloc: Global, program: &Program, ty: &Ty) -> Result<Cells, AllocError>
    ensures { IfOk result (λ cells. cells ≡ default_cells program.now (map (λ (x : ℕ × TyOf). x.1) (static_layout program.now ty.now))) }
{
    match ty {
        Ty::Known(k) => cells_of_fields(alloc, program, &[], fields_of(program, *k)),
        Ty::Inst { ty, args } => {
            cells_of_fields(alloc, program, args.as_slice(), fields_of(program, *ty))
        }
        _ => Ok(Cells::new(alloc)),
    }
}

/// The statics of a closed type, if its initializer has begun or a field of it was stored.
pub fn statics_of<'a>(world: &'a World, ty: &Ty) -> Option<&'a Statics>
    ensures { option_copied result ≡ find_statics ty.now world.now.statics }
{
    for statics in world.statics.as_slice() {
        if is_same(&statics.owner, ty) {
            return Some(statics);
        }
    }
    None
}

/// Where the statics of a closed type stand among those of all.
pub fn place_of_owner(list: &[Statics], ty: &Ty) -> Option<usize>
    ensures { result ≡ owner_place ty.now list.now }
{
    let mut count: usize = 0;
    for statics in list {
        if is_same(&statics.owner, ty) {
            return Some(count);
        }
        count += 1;
    }
    None
}

/// What stands in a static field of a closed type, or in a struct there, where a path leads.
pub(crate) fn read_static(
    alloc: Global,
    program: &Program,
    world: &World,
    ty: &Ty,
    field: u32,
    path: &[u32],
) -> Result<Option<Value>, AllocError>
    ensures { IfOk result (λ v. v ≡ cell_in (static_cells program.now world.now ty.now) (static_path program.now ty.now field path.now)) }
{
    let Some(place) = place_of_static(program, ty, field) else {
        return Ok(None);
    };
    match statics_of(world, ty) {
        Some(statics) => copied_some(alloc, read_in(&statics.cells, place, path)),
        None => {
            let cells = default_statics(alloc, program, ty)?;
            let v = copied_some(alloc, read_in(&cells, place, path))?;
            Ok(v)
        }
    }
}

fn put_in_owner(
    alloc: Global,
    program: &Program,
    statics: &mut StaticsList,
    owner: usize,
    place: usize,
    path: &[u32],
    v: Value,
) -> Result<bool, AllocError>
    requires { owner < length statics.old }
    ensures done { (s : StaticsOf) → slice_get statics.old owner ≡ Some s → IfOk result (λ done. statics_if done statics.new ≡ option_map (λ cs. slice_set statics.old owner (record s { cells = cs })) (set_in program.now (place ∷ path.now) v s.cells)) }
    ensures kept { IfOk result (λ done. done ≡ false → statics.new ≡ statics.old) }
{
    let cells = &statics.as_slice()[owner].cells;
    match stored_at(alloc, program, cells, place, path, v)? {
        None => Ok(false),
        Some(left) => {
            statics.put(owner, place, left);
            Ok(true)
        }
    }
}

fn push_owner(
    alloc: Global,
    program: &Program,
    statics: &mut StaticsList,
    ty: &Ty,
    place: usize,
    path: &[u32],
    v: Value,
) -> Result<bool, AllocError>
    ensures done { IfOk result (λ done. statics_if done statics.new ≡ option_map (λ cs. statics.old ++ record { owner = ty.now; init = None; cells = cs } ∷ []) (set_in program.now (place ∷ path.now) v (default_cells program.now (map (λ (x : ℕ × TyOf). x.1) (static_layout program.now ty.now))))) }
    ensures kept { IfOk result (λ done. done ≡ false → statics.new ≡ statics.old) }
{
    let mut cells = default_statics(alloc, program, ty)?;
    if !put_in(alloc, program, &mut cells, place, path, v)? {
        return Ok(false);
    }
    let owner = ty.copied(alloc)?;
    statics.push(Statics {
        owner,
        init: None,
        cells,
    })?;
    Ok(true)
}

fn put_in_statics(
    alloc: Global,
    program: &Program,
    statics: &mut StaticsList,
    ty: &Ty,
    place: usize,
    path: &[u32],
    v: Value,
) -> Result<bool, AllocError>
    ensures done { IfOk result (λ done. statics_if done statics.new ≡ option_map (set_owner ty.now statics.old) (set_in program.now (place ∷ path.now) v (cells_of program.now ty.now statics.old))) }
    ensures kept { IfOk result (λ done. done ≡ false → statics.new ≡ statics.old) }
{
    match place_of_owner(statics.as_slice(), ty) {
        None => push_owner(alloc, program, statics, ty, place, path, v),
        Some(owner) => put_in_owner(alloc, program, statics, owner, place, path, v),
    }
}

/// Stores into a static field of a closed type, and answers whether that may be done.
pub(crate) fn write_static(
    alloc: Global,
    program: &Program,
    world: &mut World,
    ty: &Ty,
    field: u32,
    path: &[u32],
    v: Value,
) -> Result<bool, AllocError>
    ensures done { IfOk result (λ done. world_if done world.new ≡ option_map (set_static world.old ty.now) (set_in program.now (static_path program.now ty.now field path.now) v (static_cells program.now world.old ty.now))) }
    ensures kept { IfOk result (λ done. done ≡ false → world.new ≡ world.old) }
{
    match place_of_static(program, ty, field) {
        None => Ok(false),
        Some(place) => {
            let done = put_in_statics(alloc, program, &mut world.statics, ty, place, path, v)?;
            Ok(done)
        }
    }
}
