// Where fields stand in objects and structs (ECMA-335, I.8.9.8).

ghost use Rattle.std.specs.Prelude.{ℕ, ◌≡◌, ◌+◌, ◌++◌, ◌∷◌, [], List, filter, length, map, option_map, IfOk};
ghost use Rattle.cil_model.specs.declared.ty.Ty.{Ty as TyOf};
ghost use Rattle.cil_semantics.specs.Places.{field_place, layouts, own_layout, place_of};
ghost use Rattle.run_values.specs.Kinds.{is_instance_field};
ghost use Rattle.run_values.specs.Layouts.{placed};

use crate::fields::fields_of;
use crate::kinds::{count_own, is_instance};
use cil_model::{Program, Ty};
use look_ups::{chain_of, definition_of};
use std::alloc::{AllocError, Global};

fn place_among(program: &Program, fields: &[u32], field: u32) -> Option<usize>
    ensures { (typed : ℕ → TyOf) → result ≡ place_of field (map (λ f. (f, typed f)) (filter (is_instance_field program.now) fields.now)) }
{
    let mut count: usize = 0;
    for f in fields {
        if is_instance(program, *f) {
            if *f == field {
                return Some(count);
            }
            count += 1;
        }
    }
    None
}

// Among the fields that a type has itself.
fn own_place(program: &Program, ty: &Ty, field: u32) -> Option<usize>
    ensures { result ≡ place_of field (own_layout program.now ty.now) }
{
    match ty {
        Ty::Known(k) => place_among(program, fields_of(program, *k), field),
        Ty::Inst { ty, .. } => place_among(program, fields_of(program, *ty), field),
        _ => None,
    }
}

// How many instance fields a type has itself.
fn own_count(program: &Program, ty: &Ty) -> usize
    ensures { result ≡ length (own_layout program.now ty.now) }
{
    match definition_of(ty) {
        None => 0,
        Some(k) => count_own(program, fields_of(program, k)),
    }
}

/// Where a field stands, or how many fields there are before those that are yet to be looked at.
#[derive(Clone, Copy)]
enum Sought {
    At(usize),
    Behind(usize),
}

fn look_at(program: &Program, link: &Ty, field: u32, before: usize) -> Result<Sought, AllocError>
    ensures { IfOk result (λ s. (ts : List TyOf) → placed s (place_of field (layouts program.now ts)) ≡ option_map (λ i. before + i) (place_of field (layouts program.now (ts ++ link.now ∷ [])))) }
{
    match own_place(program, link, field) {
        Some(place) => match before.checked_add(place) {
            Some(at) => Ok(Sought::At(at)),
            None => Err(AllocError),
        },
        None => match before.checked_add(own_count(program, link)) {
            Some(count) => Ok(Sought::Behind(count)),
            None => Err(AllocError),
        },
    }
}

fn look_in(program: &Program, link: Ty, field: u32, before: usize) -> Result<Sought, AllocError>
    ensures { IfOk result (λ s. (ts : List TyOf) → placed s (place_of field (layouts program.now ts)) ≡ option_map (λ i. before + i) (place_of field (layouts program.now (ts ++ link ∷ [])))) }
{
    let sought = look_at(program, &link, field, before)?;
    Ok(sought)
}

/// Where a field stands in an object or a struct of a closed type, the base's fields first.
#[tactic(auto, unfolding(cil_semantics::specs::Places::layout))]
pub fn place_of_field(
    alloc: Global,
    program: &Program,
    ty: &Ty,
    field: u32,
) -> Result<Option<usize>, AllocError>
    ensures { IfOk result (λ place. place ≡ field_place program.now ty.now field) }
{
    let mut links = chain_of(alloc, program, ty)?;
    let mut before: usize = 0;
    while let Some(link) = links.pop() {
        match look_in(program, link, field, before)? {
            Sought::At(place) => return Ok(Some(place)),
            Sought::Behind(count) => before = count,
        }
    }
    Ok(None)
}
