// The slot of an interface's method.
ghost use Rattle.std.specs.Prelude.{◌≡◌, ◌==◌, ◌&&◌, [], ◌∷◌, ℕ, List, find, map, option_map, option_and_then, IfOk};
ghost use Rattle.cil_model.specs.declared.ty.Ty.{Ty, out-Ty};
ghost use Rattle.cil_model.specs.declared.program.TypeDesc.{TypeDesc};
ghost use Rattle.cil_semantics.specs.Dispatch.{bases, implementing, interface_slot, is_interface, is_interface_kind, is_public, is_virtual, methods_of, owner_among, public_like, same_shape, seen_in, slot_of};
ghost use Rattle.cil_semantics.specs.Lookups.{base_of, chain, interfaces_of, method_of, type_of};
ghost use Rattle.cil_semantics.specs.Types.{same_ty};
ghost use Rattle.cil_semantics.specs.Words.{any, first_some, or_else};
ghost use Rattle.look_ups.specs.Slots.{slot_from};

use crate::bases::{base_of, definition_of, interfaces_of};
use crate::chain::{bases_of, chain_of, owner_of};
use crate::implemented::is_public_like;
use crate::overridden::{Seen, is_one_of};
use crate::rows::{by_rows, methods_of};
use cil_model::{Kind, Program, Ty};
use std::alloc::{AllocError, Global};

#[tactic(auto, unfolding(cil_semantics::specs::Lookups::contract_exception))]
fn is_interface_kind(program: &Program, k: u32) -> bool
    ensures { result ≡ is_interface_kind (type_of program.now k).kind }
{
    match program.types.get(k as usize) {
        Some(desc) => matches!(desc.kind, Kind::Interface),
        None => false,
    }
}

/// Whether a type names this one as an interface.
fn is_named_interface(program: &Program, ty: &Ty) -> bool
    ensures { result ≡ any (λ (d : TypeDesc). any (same_ty ty.now) d.interfaces) program.now.types }
{
    for desc in program.types.as_slice() {
        if is_one_of(ty, desc.interfaces.as_slice()) {
            return true;
        }
    }
    false
}

/// Whether a type is an interface; an outside one is where a type names it so.
#[tactic(auto, unfolding(cil_semantics::specs::Dispatch::is_interface))]
fn is_interface(program: &Program, ty: &Ty) -> bool
    ensures { result ≡ is_interface program.now ty.now }
{
    match definition_of(ty) {
        Some(k) => is_interface_kind(program, k),
        None => is_named_interface(program, ty),
    }
}

/// The type among some to which a method belongs, with the method.
fn seen_among(
    alloc: Global,
    program: &Program,
    links: &[Ty],
    method: u32,
) -> Result<Option<Seen>, AllocError>
    ensures { IfOk result (λ seen. seen ≡ option_map (λ t. (t, method)) (owner_among program.now method links.now)) }
{
    let owner = owner_of(program, method);
    for ty in links {
        if definition_of(ty) == Some(owner) {
            return Ok(Some((ty.copied(alloc)?, method)));
        }
    }
    Ok(None)
}

/// The public virtual method of a type with the shape of another.
fn public_like(
    alloc: Global,
    program: &Program,
    ty: &Ty,
    owner: &Ty,
    slot: u32,
) -> Result<Option<u32>, AllocError>
    ensures { IfOk result (λ found. found ≡ find (λ m. is_public (method_of program.now m) && (is_virtual (method_of program.now m) && same_shape program.now (ty.now, m) (owner.now, slot))) (methods_of program.now ty.now)) }
{
    for candidate in methods_of(program, ty) {
        if is_public_like(alloc, program, ty, *candidate, owner, slot)? {
            return Ok(Some(*candidate));
        }
    }
    Ok(None)
}

fn public_in(
    alloc: Global,
    program: &Program,
    ty: &Ty,
    owner: &Ty,
    slot: u32,
) -> Result<Option<Seen>, AllocError>
    ensures { IfOk result (λ found. found ≡ public_like program.now (owner.now, slot) ty.now) }
{
    match public_like(alloc, program, ty, owner, slot)? {
        Some(m) => Ok(Some((ty.copied(alloc)?, m))),
        None => Ok(None),
    }
}

/// The public virtual method of its shape in the first of some types that has one.
fn public_among(
    alloc: Global,
    program: &Program,
    tys: &[Ty],
    owner: &Ty,
    slot: u32,
) -> Result<Option<Seen>, AllocError>
    ensures { IfOk result (λ found. found ≡ first_some (public_like program.now (owner.now, slot)) tys.now) }
{
    for ty in tys {
        if let Some(seen) = public_in(alloc, program, ty, owner, slot)? {
            return Ok(Some(seen));
        }
    }
    Ok(None)
}

/// The method of a type that implements an interface's.
#[tactic(auto, unfolding(cil_semantics::specs::Dispatch::implementing))]
fn implementing(
    alloc: Global,
    program: &Program,
    ty: &Ty,
    owner: &Ty,
    slot: u32,
) -> Result<Option<Seen>, AllocError>
    ensures { IfOk result (λ found. found ≡ implementing program.now (owner.now, slot) ty.now) }
{
    let links = chain_of(alloc, program, ty)?;
    let bodies = by_rows(alloc, program, ty, links.as_slice(), owner, slot)?;
    match bodies.as_slice() {
        [] => public_in(alloc, program, ty, owner, slot),
        [m, ..] => seen_among(alloc, program, links.as_slice(), *m),
    }
}

fn names_interface(
    alloc: Global,
    program: &Program,
    ty: &Ty,
    owner: &Ty,
) -> Result<bool, AllocError>
    ensures { IfOk result (λ is. is ≡ any (same_ty owner.now) (interfaces_of program.now ty.now)) }
{
    let interfaces = interfaces_of(alloc, program, ty)?;
    Ok(is_one_of(owner, interfaces.as_slice()))
}

/// The first of some types that names the interface itself.
fn naming_among(
    alloc: Global,
    program: &Program,
    links: &[Ty],
    owner: &Ty,
) -> Result<Option<Ty>, AllocError>
    ensures { IfOk result (λ found. found ≡ find (λ u. any (same_ty owner.now) (interfaces_of program.now u)) links.now) }
{
    for ty in links {
        if names_interface(alloc, program, ty, owner)? {
            return Ok(Some(ty.copied(alloc)?));
        }
    }
    Ok(None)
}

fn naming_of(
    alloc: Global,
    program: &Program,
    ty: &Ty,
    owner: &Ty,
) -> Result<Option<Ty>, AllocError>
    ensures { IfOk result (λ found. found ≡ find (λ u. any (same_ty owner.now) (interfaces_of program.now u)) (chain program.now ty.now)) }
{
    let links = chain_of(alloc, program, ty)?;
    naming_among(alloc, program, links.as_slice(), owner)
}

fn public_in_bases(
    alloc: Global,
    program: &Program,
    ty: &Ty,
    owner: &Ty,
    slot: u32,
) -> Result<Option<Seen>, AllocError>
    ensures { IfOk result (λ found. found ≡ first_some (public_like program.now (owner.now, slot)) (bases program.now ty.now)) }
{
    let above = bases_of(alloc, program, ty)?;
    public_among(alloc, program, above.as_slice(), owner, slot)
}

/// The slot of an interface's method from a type that names the interface on.
#[cycle(slots)]
fn slot_from(
    alloc: Global,
    program: &Program,
    steps: usize,
    ty: &Ty,
    owner: &Ty,
    slot: u32,
) -> Result<Option<Seen>, AllocError>
    ensures { IfOk result (λ found. found ≡ slot_from program.now (interface_slot steps program.now (owner.now, slot)) (owner.now, slot) ty.now) }
{
    if let Some(seen) = implementing(alloc, program, ty, owner, slot)? {
        return Ok(Some(seen));
    }
    if let Some(base) = base_of(alloc, program, ty)? {
        if let Some(seen) = interface_slot(alloc, program, steps, &base, owner, slot)? {
            return Ok(Some(seen));
        }
    }
    public_in_bases(alloc, program, ty, owner, slot)
}

/// The slot of an interface's method for a type.
#[cycle(slots)]
#[tactic(auto, unfolding(cil_semantics::specs::Dispatch::interface_slot))]
fn interface_slot(
    alloc: Global,
    program: &Program,
    steps: usize,
    ty: &Ty,
    owner: &Ty,
    slot: u32,
) -> Result<Option<Seen>, AllocError>
    ensures { IfOk result (λ found. found ≡ interface_slot steps program.now (owner.now, slot) ty.now) }
{
    if steps == 0 {
        return Ok(None);
    }
    match naming_of(alloc, program, ty, owner)? {
        Some(naming) => slot_from(alloc, program, steps - 1, &naming, owner, slot),
        None => Ok(None),
    }
}

/// The slot that a method has for a type.
#[tactic(auto, unfolding(cil_semantics::specs::Dispatch::slot_of))]
pub(crate) fn slot_of(
    alloc: Global,
    program: &Program,
    ty: &Ty,
    owner: &Ty,
    method: u32,
) -> Result<Option<Seen>, AllocError>
    ensures { IfOk result (λ found. found ≡ slot_of program.now ty.now (owner.now, method)) }
{
    if is_interface(program, owner) {
        let steps = program.types.as_slice().len() + 8;
        return interface_slot(alloc, program, steps, ty, owner, method);
    }
    Ok(Some((owner.copied(alloc)?, method)))
}
