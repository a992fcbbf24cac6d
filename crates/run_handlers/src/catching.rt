// Types of exceptions, and of what a region catches (ECMA-335, I.12.4.2.5 and II.19.3).

ghost use Rattle.std.specs.Prelude.{◌≡◌, IfOk};
ghost use Rattle.std.specs.Option.{option_copied};
ghost use Rattle.cil_semantics.specs.Lookups.{method_of};
ghost use Rattle.cil_semantics.specs.Tokens.{as_type, meaning_of};
ghost use Rattle.cil_semantics.specs.Unwind.{caught_type, fits_type};

use cil_base::Token;
use cil_model::{Meaning, Program, Ty};
use cil_semantics::{Frame, World};
use look_ups::{is_subtype, ty_under};
use run_heap::object_of;
use std::alloc::{AllocError, Global};

#[tactic(auto, unfolding(cil_semantics::specs::Lookups::no_method))]
fn assembly_of(program: &Program, method: u32) -> u32
    ensures { result ≡ (method_of program.now method).assembly }
{
    match program.methods.get(method as usize) {
        Some(desc) => desc.assembly,
        None => 0,
    }
}

#[tactic(auto, unfolding(cil_semantics::specs::Tokens::meaning_of))]
fn type_named(program: &Program, assembly: u32, token: Token) -> Option<&Ty>
    ensures { option_copied result ≡ as_type (meaning_of program.now assembly token) }
{
    match program.tokens.meaning(assembly, token) {
        Some(Meaning::OfType(ty)) => Some(ty),
        _ => None,
    }
}

/// The closed type that a region of a frame's method catches by this token.
pub fn caught_type(
    alloc: Global,
    program: &Program,
    frame: &Frame,
    token: Token,
) -> Result<Option<Ty>, AllocError>
    ensures { IfOk result (λ ty. ty ≡ caught_type program.now frame.now token) }
{
    match type_named(program, assembly_of(program, frame.method), token) {
        None => Ok(None),
        Some(ty) => Ok(Some(ty_under(
            alloc,
            ty,
            frame.type_args.as_slice(),
            frame.method_args.as_slice(),
        )?)),
    }
}

/// Whether the object of a number is of a sub of a type; none is where there is no type.
pub fn fits_type(
    alloc: Global,
    program: &Program,
    world: &World,
    k: u32,
    ty: Option<&Ty>,
) -> Result<bool, AllocError>
    ensures { IfOk result (λ is. is ≡ fits_type program.now world.now k (option_copied ty.entry)) }
{
    let Some(ty) = ty else {
        return Ok(false);
    };
    match object_of(world, k) {
        None => Ok(false),
        Some(object) => is_subtype(alloc, program, &object.ty, ty),
    }
}

/// Whether a region of a frame's method that catches by this token takes the exception of a number.
pub(crate) fn is_caught(
    alloc: Global,
    program: &Program,
    frame: &Frame,
    world: &World,
    exception: u32,
    token: Token,
) -> Result<bool, AllocError>
    ensures { IfOk result (λ is. is ≡ fits_type program.now world.now exception (caught_type program.now frame.now token)) }
{
    match caught_type(alloc, program, frame, token)? {
        None => Ok(false),
        Some(ty) => {
            let is = fits_type(alloc, program, world, exception, Some(&ty))?;
            Ok(is)
        }
    }
}
