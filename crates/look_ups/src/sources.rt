// The sources of a method.
ghost use Rattle.std.specs.Prelude.{◌≡◌, ◌++◌, ◌∷◌, ◌==◌, ◌&&◌, [], ℕ, List, filter, find, flat_map, map, option_map, option_to_list, IfOk, OnOk};
ghost use Rattle.cil_model.specs.declared.ty.Ty.{Ty};
ghost use Rattle.cil_semantics.specs.Dispatch.{Seen, bases, hidden_by, is_public, is_virtual, methods_of, same_seen, same_shape, virtual_like};
ghost use Rattle.cil_semantics.specs.Lookups.{args_of, chain, interfaces_of, method_of, no_method, type_of};
ghost use Rattle.cil_semantics.specs.Types.{same_ty};
ghost use Rattle.cil_semantics.specs.Words.{any, first_some};
ghost use Rattle.look_ups.specs.Sources.{by_name, by_row, implemented, implements, once, own_type, row_declares, source_of, sources_of, sources_within};
ghost use Rattle.std.specs.List.{range_with_len};
ghost use Rattle.cil_model.specs.declared.ty.Ty.TheVariants.{Var};

use crate::bases::args_of;
use crate::chain::{chain_of, owner_of};
use crate::implemented::implemented_by;
use crate::overridden::{Seen, Seens, overridden_by};
use crate::types::is_same;
use cil_model::{Program, Source, Sources, Ty, Tys};
use std::alloc::{AllocError, Global};

fn is_found(found: &[Seen], seen: &Seen) -> bool
    ensures { result ≡ any (same_seen seen.now) found.now }
{
    for other in found {
        if seen.1 == other.1 && is_same(&seen.0, &other.0) {
            return true;
        }
    }
    false
}

/// Adds each that isn't there yet.
fn add_once(alloc: Global, found: &mut Seens, more: &[Seen]) -> Result<(), AllocError>
    ensures { OnOk result (found.new ≡ once found.old more.now) }
{
    for seen in more {
        if !is_found(found.as_slice(), seen) {
            found.push((seen.0.copied(alloc)?, seen.1))?;
        }
    }
    Ok(())
}

/// The sources of a method that is seen in a type, through at most so many bases.
#[tactic(auto, unfolding(crate::specs::Sources::sources_within))]
fn sources_within(
    alloc: Global,
    program: &Program,
    steps: usize,
    ty: &Ty,
    method: u32,
) -> Result<Seens, AllocError>
    ensures { IfOk result (λ found. found ≡ sources_within steps program.now (ty.now, method)) }
{
    let mut found = Seens::new(alloc);
    if steps == 0 {
        found.push((ty.copied(alloc)?, method))?;
        return Ok(found);
    }
    let links = chain_of(alloc, program, ty)?;
    let overridden = overridden_by(alloc, program, ty, method, links.as_slice())?;
    for slot in overridden.as_slice() {
        let more = sources_within(alloc, program, steps - 1, &slot.0, slot.1)?;
        add_once(alloc, &mut found, more.as_slice())?;
    }
    let more = implemented_by(alloc, program, ty, method, links.as_slice())?;
    add_once(alloc, &mut found, more.as_slice())?;
    Ok(found)
}

/// The parameters of a type as its arguments.
fn own_args(alloc: Global, count: u32) -> Result<Tys, AllocError>
    ensures { IfOk result (λ args. args ≡ map Var (range_with_len 0 count)) }
{
    let mut args = Tys::new(alloc);
    for k in 0..count {
        args.push(Ty::Var(k))?;
    }
    Ok(args)
}

#[tactic(auto, unfolding(cil_semantics::specs::Lookups::contract_exception))]
fn own_type(alloc: Global, program: &Program, k: u32) -> Result<Ty, AllocError>
    ensures { IfOk result (λ ty. ty ≡ own_type program.now k) }
{
    match program.types.get(k as usize) {
        Some(desc) if desc.generics != 0 => Ok(Ty::Inst {
            ty: k,
            args: own_args(alloc, desc.generics)?,
        }),
        _ => Ok(Ty::Known(k)),
    }
}

fn copied_args(alloc: Global, ty: &Ty) -> Result<Tys, AllocError>
    ensures { IfOk result (λ args. args ≡ args_of ty.now) }
{
    let mut args = Tys::new(alloc);
    for arg in args_of(ty) {
        args.push(arg.copied(alloc)?)?;
    }
    Ok(args)
}

pub(crate) fn source_from(alloc: Global, seen: &Seen) -> Result<Source, AllocError>
    ensures { IfOk result (λ source. source ≡ source_of seen.now) }
{
    Ok(Source {
        method: seen.1,
        args: copied_args(alloc, &seen.0)?,
    })
}

fn sources_from(alloc: Global, found: &[Seen]) -> Result<Sources, AllocError>
    ensures { IfOk result (λ sources. sources ≡ map source_of found.now) }
{
    let mut sources = Sources::new(alloc);
    for seen in found {
        sources.push(source_from(alloc, seen)?)?;
    }
    Ok(sources)
}

/// The sources of a method in order, each once, with the arguments under which they are seen from
/// its type: those of the methods that it overrides, the interface methods that it implements, and
/// the method itself (ECMA-335, II.10.3 and II.12.2).
#[tactic(auto, unfolding(crate::specs::Sources::sources_of))]
pub fn sources_of(alloc: Global, program: &Program, method: u32) -> Result<Sources, AllocError>
    ensures { IfOk result (λ sources. sources ≡ sources_of program.now method) }
{
    let ty = own_type(alloc, program, owner_of(program, method))?;
    let steps = program.types.as_slice().len() + 8;
    let found = sources_within(alloc, program, steps, &ty, method)?;
    sources_from(alloc, found.as_slice())
}
