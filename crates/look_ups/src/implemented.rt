// The interface methods that a method implements.
ghost use Rattle.std.specs.Prelude.{◌≡◌, ◌++◌, ◌∷◌, ◌==◌, ◌&&◌, [], ℕ, List, filter, find, flat_map, map, option_map, option_to_list, IfOk, OnOk};
ghost use Rattle.cil_model.specs.declared.ty.Ty.{Ty};
ghost use Rattle.cil_semantics.specs.Dispatch.{Seen, bases, hidden_by, is_public, is_virtual, methods_of, same_seen, same_shape, virtual_like};
ghost use Rattle.cil_semantics.specs.Lookups.{args_of, chain, interfaces_of, method_of, no_method, type_of};
ghost use Rattle.cil_semantics.specs.Types.{same_ty};
ghost use Rattle.cil_semantics.specs.Words.{any, first_some};
ghost use Rattle.look_ups.specs.Sources.{by_name, by_row, implemented, implements, once, own_type, row_declares, source_of, sources_of, sources_within};
ghost use Rattle.std.specs.List.{range_with_len};
ghost use Rattle.cil_model.specs.declared.ty.Ty.TheVariants.{Var};

use crate::bases::{args_of, interfaces_of};
use crate::overridden::Seens;
use crate::rows::{by_rows, methods_of};
use crate::shapes::{has_shape_of, is_public, is_virtual};
use cil_model::{Program, Ty};
use std::alloc::{AllocError, Global};

pub(crate) fn has_number(numbers: &[u32], number: u32) -> bool
    ensures { result ≡ any (λ n. n == number) numbers.now }
{
    for n in numbers {
        if *n == number {
            return true;
        }
    }
    false
}

/// Whether a method is public and virtual with the name and signature of an interface's.
#[tactic(auto, unfolding(cil_semantics::specs::Lookups::no_method, cil_semantics::specs::Dispatch::same_shape))]
pub(crate) fn is_public_like(
    alloc: Global,
    program: &Program,
    ty: &Ty,
    method: u32,
    owner: &Ty,
    slot: u32,
) -> Result<bool, AllocError>
    ensures { IfOk result (λ is. is ≡ (is_public (method_of program.now method) && (is_virtual (method_of program.now method) && same_shape program.now (ty.now, method) (owner.now, slot)))) }
{
    let Some(desc) = program.methods.get(method as usize) else {
        return Ok(false);
    };
    if !is_public(desc) || !is_virtual(desc) {
        return Ok(false);
    }
    has_shape_of(alloc, program, desc, args_of(ty), slot, args_of(owner))
}

/// Whether a method implements an interface's.
fn implements(
    alloc: Global,
    program: &Program,
    ty: &Ty,
    method: u32,
    links: &[Ty],
    owner: &Ty,
    slot: u32,
) -> Result<bool, AllocError>
    requires { links.now ≡ chain program.now ty.now }
    ensures { IfOk result (λ is. is ≡ implements program.now (ty.now, method) (owner.now, slot)) }
{
    let bodies = by_rows(alloc, program, ty, links, owner, slot)?;
    if has_number(bodies.as_slice(), method) {
        return Ok(true);
    }
    if bodies.as_slice().len() != 0 {
        return Ok(false);
    }
    is_public_like(alloc, program, ty, method, owner, slot)
}

/// Adds the methods of one interface that a method implements.
fn add_implemented(
    alloc: Global,
    program: &Program,
    ty: &Ty,
    method: u32,
    links: &[Ty],
    found: &mut Seens,
    owner: &Ty,
) -> Result<(), AllocError>
    requires { links.now ≡ chain program.now ty.now }
    ensures { OnOk result (found.new ≡ found.old ++ filter (implements program.now (ty.now, method)) (map (λ m. (owner.now, m)) (methods_of program.now owner.now))) }
{
    for slot in methods_of(program, owner) {
        if implements(alloc, program, ty, method, links, owner, *slot)? {
            found.push((owner.copied(alloc)?, *slot))?;
        }
    }
    Ok(())
}

/// The interface methods that a method implements, and the method itself.
pub(crate) fn implemented_by(
    alloc: Global,
    program: &Program,
    ty: &Ty,
    method: u32,
    links: &[Ty],
) -> Result<Seens, AllocError>
    requires { links.now ≡ chain program.now ty.now }
    ensures { IfOk result (λ found. found ≡ implemented program.now (ty.now, method) ++ (ty.now, method) ∷ []) }
{
    let interfaces = interfaces_of(alloc, program, ty)?;
    let mut found = Seens::new(alloc);
    for owner in interfaces.as_slice() {
        add_implemented(alloc, program, ty, method, links, &mut found, owner)?;
    }
    found.push((ty.copied(alloc)?, method))?;
    Ok(found)
}
