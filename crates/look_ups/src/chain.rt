// A closed type and its bases.
ghost use Rattle.std.specs.Prelude.{◌≡◌, ◌++◌, ◌∷◌, [], IfOk, OnOk, OnErr};
ghost use Rattle.cil_semantics.specs.Dispatch.{bases, owner_among};
ghost use Rattle.cil_semantics.specs.Lookups.{args_of, base_of, chain, method_of};
ghost use Rattle.cil_semantics.specs.Words.{maybe};

use crate::bases::{args_of, base_of, definition_of};
use cil_model::{Program, Ty, Tys};
use std::alloc::{AllocError, Global};

/// Adds a type, and answers its base.
fn add_link(
    alloc: Global,
    program: &Program,
    found: &mut Tys,
    ty: Ty,
) -> Result<Option<Ty>, AllocError>
    ensures found { OnOk result (found.new ≡ found.old ++ ty ∷ []) }
    ensures base { IfOk result (λ base. base ≡ base_of program.now ty) }
{
    let base = base_of(alloc, program, &ty)?;
    found.push(ty)?;
    Ok(base)
}

/// A closed type and its bases, the nearest first.
pub fn chain_of(alloc: Global, program: &Program, ty: &Ty) -> Result<Tys, AllocError>
    ensures { IfOk result (λ tys. tys ≡ chain program.now ty.now) }
{
    let mut found = Tys::new(alloc);
    let mut at = Some(ty.copied(alloc)?);
    for k in 0..program.types.as_slice().len() + 9 {
        let Some(ty) = at else {
            return Ok(found);
        };
        at = add_link(alloc, program, &mut found, ty)?;
    }
    Ok(found)
}

/// The bases of a closed type, the nearest first.
pub fn bases_of(alloc: Global, program: &Program, ty: &Ty) -> Result<Tys, AllocError>
    ensures { IfOk result (λ tys. tys ≡ bases program.now ty.now) }
{
    match base_of(alloc, program, ty)? {
        Some(base) => chain_of(alloc, program, &base),
        None => Ok(Tys::new(alloc)),
    }
}

#[tactic(auto, unfolding(cil_semantics::specs::Lookups::no_method))]
pub(crate) fn owner_of(program: &Program, method: u32) -> u32
    ensures { result ≡ (method_of program.now method).owner }
{
    match program.methods.get(method as usize) {
        Some(desc) => desc.owner,
        None => 0,
    }
}

/// The arguments under which one of these types has a method.
pub(crate) fn owner_args<'a>(program: &Program, chain: &'a [Ty], method: u32) -> &'a [Ty]
    ensures { result.now ≡ maybe [] args_of (owner_among program.now method chain.now) }
{
    let owner = owner_of(program, method);
    for ty in chain {
        if definition_of(ty) == Some(owner) {
            return args_of(ty);
        }
    }
    &[]
}
