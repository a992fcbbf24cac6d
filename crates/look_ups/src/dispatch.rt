// The body that a virtual call runs.
ghost use Rattle.std.specs.Prelude.{◌≡◌, ◌++◌, ◌==◌, ◌&&◌, ◌||◌, [], ◌∷◌, Option, filter, map, not, is_some, option_map, reverse, unwrap_or, IfOk, OnOk};
ghost use Rattle.cil_model.specs.declared.ty.Ty.{Ty};
ghost use Rattle.cil_semantics.specs.Dispatch.{Seen, bases, bodies_in, body_for, by_rows, chosen, hidden_by, is_virtual, methods_of, nearest, overriders, overrides, overrides_outside, same_seen, same_shape, takes_new_slot};
ghost use Rattle.cil_semantics.specs.Lookups.{chain, method_of, no_method};
ghost use Rattle.cil_semantics.specs.Types.{same_ty};
ghost use Rattle.cil_semantics.specs.Words.{any, maybe, only};
ghost use Rattle.look_ups.specs.Sources.{source_of};
ghost use Rattle.look_ups.specs.Overriding.{overrides_by_name, overrides_either};

use crate::bases::args_of;
use crate::chain::{bases_of, chain_of};
use crate::implemented::has_number;
use crate::overridden::{Seen, Seens, hidden_among, is_one_of};
use crate::rows::{by_rows, methods_of};
use crate::shapes::{has_shape_of, is_virtual, takes_new_slot};
use crate::slots::slot_of;
use crate::sources::source_from;
use crate::types::is_same;
use cil_model::{MethodDesc, Program, Source, Ty};
use std::alloc::{AllocError, Global};

#[tactic(auto, unfolding(cil_semantics::specs::Lookups::no_method))]
fn is_outside(program: &Program, method: u32) -> bool
    ensures { result ≡ (method_of program.now method).outside }
{
    match program.methods.get(method as usize) {
        Some(desc) => desc.outside,
        None => true,
    }
}

/// Whether a slot is outside, in one of these types, and of a method's shape.
#[tactic(auto, unfolding(cil_semantics::specs::Dispatch::same_shape))]
fn is_outside_like(
    alloc: Global,
    program: &Program,
    ty: &Ty,
    desc: &MethodDesc,
    method: u32,
    above: &[Ty],
    slot: &Seen,
) -> Result<bool, AllocError>
    requires { desc.now ≡ method_of program.now method }
    ensures { IfOk result (λ is. is ≡ ((method_of program.now slot.now.1).outside && (any (same_ty slot.now.0) above.now && same_shape program.now (ty.now, method) slot.now))) }
{
    if !is_outside(program, slot.1) || !is_one_of(&slot.0, above) {
        return Ok(false);
    }
    has_shape_of(alloc, program, desc, args_of(ty), slot.1, args_of(&slot.0))
}

/// Whether a method overrides a slot by its name and signature.
#[tactic(auto, unfolding(cil_semantics::specs::Lookups::no_method))]
fn overrides_by_name(
    alloc: Global,
    program: &Program,
    ty: &Ty,
    method: u32,
    slot: &Seen,
) -> Result<bool, AllocError>
    ensures { IfOk result (λ is. is ≡ overrides_by_name program.now (ty.now, method) slot.now) }
{
    let Some(desc) = program.methods.get(method as usize) else {
        return Ok(false);
    };
    if !is_virtual(desc) || takes_new_slot(desc) {
        return Ok(false);
    }
    let above = bases_of(alloc, program, ty)?;
    match hidden_among(alloc, program, above.as_slice(), ty, desc, method)? {
        Some(hidden) => Ok(slot.1 == hidden.1 && is_same(&slot.0, &hidden.0)),
        None => is_outside_like(alloc, program, ty, desc, method, above.as_slice(), slot),
    }
}

/// Whether rows of a type name a method for a slot.
fn is_named(
    alloc: Global,
    program: &Program,
    ty: &Ty,
    method: u32,
    slot: &Seen,
) -> Result<bool, AllocError>
    ensures { IfOk result (λ is. is ≡ any (λ b. b == method) (by_rows program.now ty.now slot.now)) }
{
    let links = chain_of(alloc, program, ty)?;
    let bodies = by_rows(alloc, program, ty, links.as_slice(), &slot.0, slot.1)?;
    Ok(has_number(bodies.as_slice(), method))
}

fn has_base(alloc: Global, program: &Program, ty: &Ty, base: &Ty) -> Result<bool, AllocError>
    ensures { IfOk result (λ is. is ≡ any (same_ty base.now) (bases program.now ty.now)) }
{
    let above = bases_of(alloc, program, ty)?;
    Ok(is_one_of(base, above.as_slice()))
}

/// Whether a method overrides a slot, of an outside base too.
fn overrides_either(
    alloc: Global,
    program: &Program,
    ty: &Ty,
    method: u32,
    slot: &Seen,
) -> Result<bool, AllocError>
    ensures { IfOk result (λ is. is ≡ overrides_either program.now (ty.now, method) slot.now) }
{
    let named = is_named(alloc, program, ty, method, slot)?;
    if named {
        return has_base(alloc, program, ty, &slot.0);
    }
    overrides_by_name(alloc, program, ty, method, slot)
}

fn overrides_one(
    alloc: Global,
    program: &Program,
    ty: &Ty,
    method: u32,
    seen: &[Seen],
) -> Result<bool, AllocError>
    ensures { IfOk result (λ is. is ≡ any (overrides_either program.now (ty.now, method)) seen.now) }
{
    for slot in seen {
        if overrides_either(alloc, program, ty, method, slot)? {
            return Ok(true);
        }
    }
    Ok(false)
}

/// The methods of a type that override one of these.
fn overriders_in(
    alloc: Global,
    program: &Program,
    ty: &Ty,
    seen: &[Seen],
) -> Result<Seens, AllocError>
    ensures { IfOk result (λ more. more ≡ filter (λ x. any (overrides_either program.now x) seen.now) (map (λ m. (ty.now, m)) (methods_of program.now ty.now))) }
{
    let mut more = Seens::new(alloc);
    for method in methods_of(program, ty) {
        if overrides_one(alloc, program, ty, *method, seen)? {
            more.push((ty.copied(alloc)?, *method))?;
        }
    }
    Ok(more)
}

fn add_overriders_in(
    alloc: Global,
    program: &Program,
    ty: Ty,
    seen: &mut Seens,
) -> Result<(), AllocError>
    ensures { OnOk result (seen.new ≡ seen.old ++ filter (λ x. any (overrides_either program.now x) seen.old) (map (λ m. (ty, m)) (methods_of program.now ty))) }
{
    let more = overriders_in(alloc, program, &ty, seen.as_slice())?;
    seen.append(more)?;
    Ok(())
}

/// Adds the methods of a type and its bases that override one of these, directly or through others.
fn add_overriders(
    alloc: Global,
    program: &Program,
    ty: &Ty,
    seen: &mut Seens,
) -> Result<(), AllocError>
    ensures { OnOk result (seen.new ≡ overriders program.now (reverse (chain program.now ty.now)) seen.old) }
{
    let mut left = chain_of(alloc, program, ty)?;
    while let Some(ty) = left.pop() {
        add_overriders_in(alloc, program, ty, seen)?;
    }
    Ok(())
}

#[tactic(auto, unfolding(cil_semantics::specs::Lookups::no_method))]
fn has_body(program: &Program, method: u32) -> bool
    ensures { result ≡ is_some (method_of program.now method).body }
{
    match program.methods.get(method as usize) {
        Some(desc) => desc.body.is_some(),
        None => false,
    }
}

/// Those that are seen in a type and have a body.
fn bodies_in(alloc: Global, program: &Program, seen: &[Seen], ty: &Ty) -> Result<Seens, AllocError>
    ensures { IfOk result (λ found. found ≡ bodies_in program.now seen.now ty.now) }
{
    let mut found = Seens::new(alloc);
    for one in seen {
        if is_same(&one.0, ty) && has_body(program, one.1) {
            found.push((one.0.copied(alloc)?, one.1))?;
        }
    }
    Ok(found)
}

fn named_among(alloc: Global, seen: &[Seen], numbers: &[u32]) -> Result<Seens, AllocError>
    ensures { IfOk result (λ found. found ≡ filter (λ (z : Seen). any (λ m. m == z.1) numbers.now) seen.now) }
{
    let mut found = Seens::new(alloc);
    for one in seen {
        if has_number(numbers, one.1) {
            found.push((one.0.copied(alloc)?, one.1))?;
        }
    }
    Ok(found)
}

fn copied_seen(alloc: Global, seen: &Seen) -> Result<Seen, AllocError>
    ensures { IfOk result (λ it. it ≡ seen.now) }
{
    Ok((seen.0.copied(alloc)?, seen.1))
}

/// The only one, if there is just one.
fn only_one(alloc: Global, seen: &[Seen]) -> Result<Option<Seen>, AllocError>
    ensures { IfOk result (λ one. one ≡ only seen.now) }
{
    match seen {
        [one] => Ok(Some(copied_seen(alloc, one)?)),
        _ => Ok(None),
    }
}

/// The one that rows of a type name for the slot, if just one is.
fn only_named(
    alloc: Global,
    program: &Program,
    slot: &Seen,
    ty: &Ty,
    seen: &[Seen],
) -> Result<Option<Seen>, AllocError>
    ensures { IfOk result (λ one. one ≡ only (filter (λ (z : Seen). any (λ m. m == z.1) (by_rows program.now ty.now slot.now)) seen.now)) }
{
    let links = chain_of(alloc, program, ty)?;
    let numbers = by_rows(alloc, program, ty, links.as_slice(), &slot.0, slot.1)?;
    let named = named_among(alloc, seen, numbers.as_slice())?;
    only_one(alloc, named.as_slice())
}

/// What is chosen in a type that has bodies; nothing is where it has none.
fn chosen_in(
    alloc: Global,
    program: &Program,
    slot: &Seen,
    seen: &[Seen],
    ty: &Ty,
) -> Result<Option<Option<Seen>>, AllocError>
    ensures { IfOk result (λ choice. (other : Option Seen) → chosen program.now slot.now ty.now (bodies_in program.now seen.now ty.now) other ≡ unwrap_or choice other) }
{
    let bodies = bodies_in(alloc, program, seen, ty)?;
    match bodies.as_slice() {
        [] => Ok(None),
        [one] => Ok(Some(Some(copied_seen(alloc, one)?))),
        all => Ok(Some(only_named(alloc, program, slot, ty, all)?)),
    }
}

/// The body in the nearest type that has one.
fn nearest(
    alloc: Global,
    program: &Program,
    slot: &Seen,
    seen: &[Seen],
    links: &[Ty],
) -> Result<Option<Seen>, AllocError>
    ensures { IfOk result (λ found. found ≡ nearest program.now slot.now seen.now links.now) }
{
    for ty in links {
        if let Some(choice) = chosen_in(alloc, program, slot, seen, ty)? {
            return Ok(choice);
        }
    }
    Ok(None)
}

fn body_of_slot(
    alloc: Global,
    program: &Program,
    ty: &Ty,
    slot: &Seen,
) -> Result<Option<Seen>, AllocError>
    ensures { IfOk result (λ found. found ≡ nearest program.now slot.now (overriders program.now (reverse (chain program.now ty.now)) (slot.now ∷ [])) (chain program.now ty.now)) }
{
    let mut seen = Seens::new(alloc);
    seen.push(copied_seen(alloc, slot)?)?;
    add_overriders(alloc, program, ty, &mut seen)?;
    let links = chain_of(alloc, program, ty)?;
    nearest(alloc, program, slot, seen.as_slice(), links.as_slice())
}

#[tactic(auto, unfolding(cil_semantics::specs::Dispatch::body_for))]
fn body_for(
    alloc: Global,
    program: &Program,
    ty: &Ty,
    owner: &Ty,
    method: u32,
) -> Result<Option<Seen>, AllocError>
    ensures { IfOk result (λ found. found ≡ body_for program.now ty.now (owner.now, method)) }
{
    match slot_of(alloc, program, ty, owner, method)? {
        Some(slot) => body_of_slot(alloc, program, ty, &slot),
        None => Ok(None),
    }
}

/// The body that a virtual call of a method of an instance runs on an object of a closed type, with
/// the arguments under which the type sees it; none where there is no body, or not just one
/// (ECMA-335, III.4.2, II.12.2).
pub fn find_virtual(
    alloc: Global,
    program: &Program,
    ty: &Ty,
    owner: &Ty,
    method: u32,
) -> Result<Option<Source>, AllocError>
    ensures { IfOk result (λ found. found ≡ option_map source_of (body_for program.now ty.now (owner.now, method))) }
{
    match body_for(alloc, program, ty, owner, method)? {
        Some(seen) => Ok(Some(source_from(alloc, &seen)?)),
        None => Ok(None),
    }
}
