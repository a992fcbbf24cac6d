// Types that a clause's own words name, where it stands (ECMA-335, II.9.2 and II.23.2).

ghost use Rattle.std.specs.Prelude.{ℕ, ◌≡◌, ◌==◌, if◌then◌else◌, [], ◌∷◌, ◌++◌, option_map, slice_get, IfOk, OnOk};
ghost use Rattle.std.specs.Option.{option_copied};
ghost use Rattle.cil_semantics.specs.Frames.{types_of_refs};
ghost use Rattle.cil_semantics.specs.Lookups.{args_of, method_of};
ghost use Rattle.cil_semantics.specs.Tokens.{meaning_of, named_type, ref_type, ty_in};
ghost use Rattle.cil_semantics.specs.Types.{under};

use crate::tokens::Given;
use cil_model::{Meaning, Program, Ty, TyRef, Tys, Under};
use look_ups::{args_of, ty_under};
use sqlite_items::Boxed;
use std::alloc::{AllocError, Global};

fn copied_some(alloc: Global, ty: Option<&Ty>) -> Result<Option<Ty>, AllocError>
    ensures { IfOk result (λ copy. copy ≡ option_copied ty.entry) }
{
    match ty {
        None => Ok(None),
        Some(ty) => Ok(Some(ty.copied(alloc)?)),
    }
}

// The type at a place of a method's signature: its result, and then its parameters.
#[tactic(auto, unfolding(cil_semantics::specs::Lookups::no_method))]
fn type_in_signature(
    alloc: Global,
    program: &Program,
    method: u32,
    index: u32,
) -> Result<Option<Ty>, AllocError>
    ensures { IfOk result (λ ty. ty ≡ slice_get ((method_of program.now method).result ∷ (method_of program.now method).params) index) }
{
    let Some(desc) = program.methods.get(method as usize) else {
        if index == 0 {
            return Ok(Some(Ty::Prim(0x01)));
        }
        return Ok(None);
    };
    if index == 0 {
        return Ok(Some(desc.result.copied(alloc)?));
    }
    copied_some(alloc, desc.params.get((index - 1) as usize))
}

// The type at a place of a method's signature, as a row of members names it.
fn type_of_member(
    alloc: Global,
    program: &Program,
    owner: &Ty,
    method: u32,
    args: &[Ty],
    index: u32,
) -> Result<Option<Ty>, AllocError>
    ensures { IfOk result (λ ty. ty ≡ option_map (under (args_of owner.now) args.now) (slice_get ((method_of program.now method).result ∷ (method_of program.now method).params) index)) }
{
    match type_in_signature(alloc, program, method, index)? {
        None => Ok(None),
        Some(ty) => Ok(Some(ty_under(alloc, &ty, args_of(owner), args)?)),
    }
}

fn type_in_method(
    alloc: Global,
    program: &Program,
    reference: &TyRef,
    owner: &Ty,
    method: u32,
    args: &[Ty],
) -> Result<Option<Ty>, AllocError>
    ensures { IfOk result (λ ty. ty ≡ (if reference.now.token.table == 0x2B then slice_get args.now reference.now.index else option_map (under (args_of owner.now) args.now) (slice_get ((method_of program.now method).result ∷ (method_of program.now method).params) reference.now.index))) }
{
    if reference.token.table == 0x2B {
        return copied_some(alloc, args.get(reference.index as usize));
    }
    let ty = type_of_member(alloc, program, owner, method, args, reference.index)?;
    Ok(ty)
}

// The type that a row names at an index.
#[tactic(auto, unfolding(cil_semantics::specs::Tokens::meaning_of))]
fn named_type(alloc: Global, program: &Program, reference: &TyRef) -> Result<Option<Ty>, AllocError>
    ensures { IfOk result (λ ty. ty ≡ named_type program.now reference.now (meaning_of program.now reference.now.assembly reference.now.token)) }
{
    match program.tokens.meaning(reference.assembly, reference.token) {
        Some(Meaning::OfType(ty)) => Ok(Some(ty.copied(alloc)?)),
        Some(Meaning::OfLocals(tys)) => copied_some(alloc, tys.get(reference.index as usize)),
        Some(
            Meaning::OfMethod {
                owner,
                method,
                args,
            },
        ) => type_in_method(alloc, program, reference, owner, *method, args.as_slice()),
        _ => Ok(None),
    }
}

// The type where others stand for the parameters in the words of a clause's own method.
fn ty_in(alloc: Global, under: &Option<Boxed<Under>>, ty: Ty) -> Result<Ty, AllocError>
    ensures { IfOk result (λ it. it ≡ ty_in under.now ty) }
{
    match under {
        None => Ok(ty),
        Some(it) => {
            let own = it.get();
            ty_under(
                alloc,
                &ty,
                own.type_args.as_slice(),
                own.method_args.as_slice(),
            )
        }
    }
}

/// The closed type that a clause's own words name, where it stands in a frame; `None` where they name no type.
#[tactic(auto, unfolding(cil_semantics::specs::Tokens::ref_type))]
pub fn ref_type(
    alloc: Global,
    program: &Program,
    given: &Given,
    reference: &TyRef,
) -> Result<Option<Ty>, AllocError>
    ensures { (number method : ℕ) → IfOk result (λ ty. ty ≡ ref_type program.now (record { number = number; method = method; type_args = given.now.type_args.now; method_args = given.now.method_args.now }) reference.now) }
{
    match named_type(alloc, program, reference)? {
        None => Ok(None),
        Some(named) => {
            let own = ty_in(alloc, &reference.under, named)?;
            let ty = ty_under(alloc, &own, given.type_args, given.method_args)?;
            Ok(Some(ty))
        }
    }
}

// The type that a reference names; one that says nothing where it names none.
fn type_or_opaque(
    alloc: Global,
    program: &Program,
    given: &Given,
    reference: &TyRef,
) -> Result<Ty, AllocError>
    ensures { (number method : ℕ) → IfOk result (λ ty. ty ∷ [] ≡ types_of_refs program.now (record { number = number; method = method; type_args = given.now.type_args.now; method_args = given.now.method_args.now }) (reference.now ∷ [])) }
{
    match ref_type(alloc, program, given, reference)? {
        None => Ok(Ty::Opaque),
        Some(ty) => Ok(ty),
    }
}

/// Appends the type that a reference names, where it stands in a frame; where it names none, the type that says nothing.
pub fn push_ref_type(
    alloc: Global,
    program: &Program,
    given: &Given,
    reference: &TyRef,
    tys: &mut Tys,
) -> Result<(), AllocError>
    ensures { (number method : ℕ) → OnOk result (tys.new ≡ tys.old ++ types_of_refs program.now (record { number = number; method = method; type_args = given.now.type_args.now; method_args = given.now.method_args.now }) (reference.now ∷ [])) }
{
    tys.push(type_or_opaque(alloc, program, given, reference)?)?;
    Ok(())
}

/// Appends the types that these references name, where they stand in a frame. An error leaves any list.
pub fn push_ref_types(
    alloc: Global,
    program: &Program,
    given: &Given,
    references: &[TyRef],
    tys: &mut Tys,
) -> Result<(), AllocError>
    ensures { (number method : ℕ) → OnOk result (tys.new ≡ tys.old ++ types_of_refs program.now (record { number = number; method = method; type_args = given.now.type_args.now; method_args = given.now.method_args.now }) references.now) }
{
    for reference in references {
        push_ref_type(alloc, program, given, reference, tys)?;
    }
    Ok(())
}
