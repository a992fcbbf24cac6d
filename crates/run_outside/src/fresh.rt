// New values of types whose constructor is outside (ECMA-335, III.4.21).

ghost use Rattle.std.specs.Prelude.{ℕ, ◌≡◌, ◌++◌, ◌∷◌, [], List, map, IfOk};
ghost use Rattle.cil_model.specs.declared.ty.Ty.{Ty as TyOf, out-Ty};
ghost use Rattle.cil_semantics.specs.Outside.{is_string, made, with_made};
ghost use Rattle.cil_semantics.specs.Places.{default_cells, is_reference, layout, layouts};

use cil_base::Units;
use cil_model::{Program, Ty, Value};
use cil_semantics::{Cells, Object, World};
use il_opcodes::Storage;
use look_ups::chain_of;
use run_heap::number_of_next;
use run_unwind::add_object;
use run_values::{default_of, new_default, storage_of, types_of_fields};
use std::alloc::{AllocError, Global};

fn add_defaults(
    alloc: Global,
    program: &Program,
    tys: &[Ty],
    cells: &mut Cells,
) -> Result<(), AllocError>
    ensures { IfOk result (λ _. cells.new ≡ cells.old ++ default_cells program.now tys.now) }
{
    for ty in tys {
        cells.push(new_default(alloc, program, ty.copied(alloc)?)?)?;
    }
    Ok(())
}

// The fields that a type has itself, behind those of its bases.
#[tactic(auto, using(crate::proofs::FreshLaws::link_added))]
fn add_fields(
    alloc: Global,
    program: &Program,
    ty: &Ty,
    cells: &mut Cells,
) -> Result<(), AllocError>
    ensures { IfOk result (λ _. (ts : List TyOf) → cells.new ++ default_cells program.now (map (λ (x : ℕ × TyOf). x.1) (layouts program.now ts)) ≡ cells.old ++ default_cells program.now (map (λ (x : ℕ × TyOf). x.1) (layouts program.now (ts ++ ty.now ∷ [])))) }
{
    let tys = types_of_fields(alloc, program, ty)?;
    add_defaults(alloc, program, tys.as_slice(), cells)
}

/// The fields of a new object of a closed type, the base's first, at their default values.
#[tactic(auto, unfolding(cil_semantics::specs::Places::layout))]
pub fn new_fields(alloc: Global, program: &Program, ty: &Ty) -> Result<Cells, AllocError>
    ensures { IfOk result (λ cells. cells ≡ default_cells program.now (map (λ (x : ℕ × TyOf). x.1) (layout program.now ty.now))) }
{
    let mut links = chain_of(alloc, program, ty)?;
    let mut cells = Cells::new(alloc);
    while let Some(link) = links.pop() {
        add_fields(alloc, program, &link, &mut cells)?;
    }
    Ok(cells)
}

fn is_text(ty: &Ty) -> bool
    ensures { result ≡ is_string (out-Ty ty.now) }
{
    match ty {
        Ty::Prim(b) => *b == 0x0E,
        _ => false,
    }
}

fn is_of_references(storage: Storage) -> bool
    ensures { result ≡ is_reference storage }
{
    matches!(storage, Storage::Reference)
}

fn new_object(alloc: Global, program: &Program, ty: &Ty) -> Result<Object, AllocError>
    ensures { IfOk result (λ o. o ≡ record { ty = ty.now; cells = default_cells program.now (map (λ (x : ℕ × TyOf). x.1) (layout program.now ty.now)) }) }
{
    let cells = new_fields(alloc, program, ty)?;
    let ty = ty.copied(alloc)?;
    Ok(Object { ty, cells })
}

/// A new value of a type, and the world with it: the empty text, an object of a reference type, or a struct's default value.
#[tactic(auto, unfolding(cil_semantics::specs::Outside::made))]
pub(crate) fn make(
    alloc: Global,
    program: &Program,
    ty: &Ty,
    world: &mut World,
) -> Result<Value, AllocError>
    ensures { IfOk result (λ v. (v, world.new) ≡ with_made program.now (made program.now ty.now) world.old) }
{
    if is_text(ty) {
        return Ok(Value::Text(Units::new(alloc)));
    }
    if !is_of_references(storage_of(program, ty)) {
        return default_of(alloc, program, ty);
    }
    let k = number_of_next(world)?;
    let object = new_object(alloc, program, ty)?;
    add_object(program, object, world)?;
    Ok(Value::Obj(k))
}
