// The methods of bases that a method overrides.
ghost use Rattle.std.specs.Prelude.{◌≡◌, ◌++◌, ◌∷◌, ◌==◌, ◌&&◌, [], ℕ, List, filter, find, flat_map, map, option_map, option_to_list, IfOk, OnOk};
ghost use Rattle.cil_model.specs.declared.ty.Ty.{Ty};
ghost use Rattle.cil_semantics.specs.Dispatch.{Seen, bases, hidden_by, is_public, is_virtual, methods_of, same_seen, same_shape, virtual_like};
ghost use Rattle.cil_semantics.specs.Lookups.{args_of, chain, interfaces_of, method_of, no_method, type_of};
ghost use Rattle.cil_semantics.specs.Types.{same_ty};
ghost use Rattle.cil_semantics.specs.Words.{any, first_some};
ghost use Rattle.look_ups.specs.Sources.{by_name, by_row, implemented, implements, once, own_type, row_declares, source_of, sources_of, sources_within};
ghost use Rattle.std.specs.List.{range_with_len};
ghost use Rattle.cil_model.specs.declared.ty.Ty.TheVariants.{Var};

use crate::bases::args_of;
use crate::chain::bases_of;
use crate::rows::{impls_of, methods_of, row_counts};
use crate::shapes::{is_virtual, same_shape, takes_new_slot};
use crate::types::{is_same, ty_under};
use cil_model::{Impl, MethodDesc, Program, Ty};
use sqlite_items::Items;
use std::alloc::{AllocError, Global};

/// A method with the closed type that it is seen in.
pub(crate) type Seen = (Ty, u32);

pub(crate) type Seens = Items<Seen>;

pub(crate) fn is_one_of(ty: &Ty, tys: &[Ty]) -> bool
    ensures { result ≡ any (same_ty ty.now) tys.now }
{
    for other in tys {
        if is_same(ty, other) {
            return true;
        }
    }
    false
}

/// Adds what a row of the type declares, where it counts, is of the method and names a base.
fn add_declared(
    alloc: Global,
    program: &Program,
    ty: &Ty,
    method: u32,
    links: &[Ty],
    above: &[Ty],
    found: &mut Seens,
    row: &Impl,
) -> Result<(), AllocError>
    requires links { links.now ≡ chain program.now ty.now }
    requires above { above.now ≡ bases program.now ty.now }
    ensures { OnOk result (found.new ≡ found.old ++ row_declares program.now (ty.now, method) row.now) }
{
    if row.body != method || !row_counts(alloc, program, ty, links, row)? {
        return Ok(());
    }
    let owner = ty_under(alloc, &row.owner, args_of(ty), &[])?;
    if is_one_of(&owner, above) {
        found.push((owner, row.declaration))?;
    }
    Ok(())
}

/// The methods of bases that rows of the type name for a method, in row order.
fn by_row(
    alloc: Global,
    program: &Program,
    ty: &Ty,
    method: u32,
    links: &[Ty],
    above: &[Ty],
) -> Result<Seens, AllocError>
    requires links { links.now ≡ chain program.now ty.now }
    requires above { above.now ≡ bases program.now ty.now }
    ensures { IfOk result (λ found. found ≡ by_row program.now (ty.now, method)) }
{
    let mut found = Seens::new(alloc);
    for row in impls_of(program, ty) {
        add_declared(alloc, program, ty, method, links, above, &mut found, row)?;
    }
    Ok(found)
}

#[tactic(auto, unfolding(cil_semantics::specs::Lookups::no_method, cil_semantics::specs::Dispatch::same_shape))]
fn is_virtual_like(
    alloc: Global,
    program: &Program,
    ty: &Ty,
    candidate: u32,
    own: &Ty,
    desc: &MethodDesc,
    method: u32,
) -> Result<bool, AllocError>
    requires { desc.now ≡ method_of program.now method }
    ensures { IfOk result (λ is. is ≡ (is_virtual (method_of program.now candidate) && same_shape program.now (ty.now, candidate) (own.now, method))) }
{
    let Some(other) = program.methods.get(candidate as usize) else {
        return Ok(false);
    };
    if !is_virtual(other) {
        return Ok(false);
    }
    same_shape(alloc, other, args_of(ty), desc, args_of(own))
}

/// The virtual method of a type with the shape of another.
fn virtual_like(
    alloc: Global,
    program: &Program,
    ty: &Ty,
    own: &Ty,
    desc: &MethodDesc,
    method: u32,
) -> Result<Option<u32>, AllocError>
    requires { desc.now ≡ method_of program.now method }
    ensures { IfOk result (λ found. found ≡ find (λ m. is_virtual (method_of program.now m) && same_shape program.now (ty.now, m) (own.now, method)) (methods_of program.now ty.now)) }
{
    for candidate in methods_of(program, ty) {
        if is_virtual_like(alloc, program, ty, *candidate, own, desc, method)? {
            return Ok(Some(*candidate));
        }
    }
    Ok(None)
}

/// The virtual method of its name and signature in the first of some types that has one.
pub(crate) fn hidden_among(
    alloc: Global,
    program: &Program,
    above: &[Ty],
    own: &Ty,
    desc: &MethodDesc,
    method: u32,
) -> Result<Option<Seen>, AllocError>
    requires { desc.now ≡ method_of program.now method }
    ensures { IfOk result (λ found. found ≡ first_some (virtual_like program.now (own.now, method)) above.now) }
{
    for base in above {
        if let Some(m) = virtual_like(alloc, program, base, own, desc, method)? {
            return Ok(Some((base.copied(alloc)?, m)));
        }
    }
    Ok(None)
}

fn add_hidden(
    alloc: Global,
    program: &Program,
    above: &[Ty],
    own: &Ty,
    desc: &MethodDesc,
    method: u32,
    found: &mut Seens,
) -> Result<(), AllocError>
    requires { desc.now ≡ method_of program.now method }
    ensures { OnOk result (found.new ≡ found.old ++ option_to_list (first_some (virtual_like program.now (own.now, method)) above.now)) }
{
    if let Some(seen) = hidden_among(alloc, program, above, own, desc, method)? {
        found.push(seen)?;
    }
    Ok(())
}

#[tactic(auto, unfolding(cil_semantics::specs::Lookups::no_method))]
fn add_by_name(
    alloc: Global,
    program: &Program,
    ty: &Ty,
    method: u32,
    above: &[Ty],
    found: &mut Seens,
) -> Result<(), AllocError>
    requires { above.now ≡ bases program.now ty.now }
    ensures { OnOk result (found.new ≡ found.old ++ by_name program.now (ty.now, method)) }
{
    match program.methods.get(method as usize) {
        Some(desc) => {
            if is_virtual(desc) && !takes_new_slot(desc) {
                add_hidden(alloc, program, above, ty, desc, method, found)?;
            }
            Ok(())
        }
        None => Ok(()),
    }
}

/// The methods of bases that a method overrides.
pub(crate) fn overridden_by(
    alloc: Global,
    program: &Program,
    ty: &Ty,
    method: u32,
    links: &[Ty],
) -> Result<Seens, AllocError>
    requires { links.now ≡ chain program.now ty.now }
    ensures { IfOk result (λ found. found ≡ by_row program.now (ty.now, method) ++ by_name program.now (ty.now, method)) }
{
    let above = bases_of(alloc, program, ty)?;
    let mut found = by_row(alloc, program, ty, method, links, above.as_slice())?;
    add_by_name(alloc, program, ty, method, above.as_slice(), &mut found)?;
    Ok(found)
}
