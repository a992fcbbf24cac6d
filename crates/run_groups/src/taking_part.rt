// Which pieces of a group run (Code Contracts User Manual, section 2.3).

ghost use Rattle.std.specs.Prelude.{◌≡◌, List, option_and_then, option_map, IfOk};
ghost use Rattle.cil_semantics.specs.Tokens.{ref_type};
ghost use Rattle.cil_semantics.specs.Unwind.{first_from, fits_type, here_of, takes_part};
ghost use Rattle.cil_semantics.specs.declared.Frame.{Frame as FrameOf};
ghost use Rattle.run_groups.specs.Begun.{place_of_piece};

use cil_model::{Clause, Group, Program, Ty};
use cil_semantics::{Frame, ProgramPoint, World};
use run_handlers::fits_type;
use run_machine::Piece;
use run_tokens::{Given, ref_type};
use std::alloc::{AllocError, Global};

// The type of the exceptions that a clause looks at.
fn exception_of(
    alloc: Global,
    program: &Program,
    frame: &Frame,
    clause: &Clause,
) -> Result<Option<Ty>, AllocError>
    ensures { (fs : List FrameOf) → IfOk result (λ ty. ty ≡ option_and_then (ref_type program.now (here_of frame.now fs)) clause.now.exception) }
{
    let Some(reference) = &clause.exception else {
        return Ok(None);
    };
    let given = Given {
        type_args: frame.type_args.as_slice(),
        method_args: frame.method_args.as_slice(),
    };
    let ty = ref_type(alloc, program, &given, reference)?;
    Ok(ty)
}

// Whether the exception of a number is one that a clause looks at.
fn is_looked_at(
    alloc: Global,
    program: &Program,
    frame: &Frame,
    world: &World,
    clause: &Clause,
    exception: u32,
) -> Result<bool, AllocError>
    ensures { (fs : List FrameOf) → IfOk result (λ is. is ≡ fits_type program.now world.now exception (option_and_then (ref_type program.now (here_of frame.now fs)) clause.now.exception)) }
{
    match exception_of(alloc, program, frame, clause)? {
        None => Ok(false),
        Some(ty) => {
            let is = fits_type(alloc, program, world, exception, Some(&ty))?;
            Ok(is)
        }
    }
}

// Whether a piece of a group runs: of EnsuresOnThrow only where the exception fits.
fn takes_part(
    alloc: Global,
    program: &Program,
    frame: &Frame,
    world: &World,
    piece: &Piece<'_>,
) -> Result<bool, AllocError>
    ensures { (fs : List FrameOf) → IfOk result (λ is. is ≡ takes_part program.now frame.now fs world.now piece.now) }
{
    let Some(exception) = frame.thrown else {
        return Ok(true);
    };
    let is = is_looked_at(alloc, program, frame, world, piece.clause(), exception)?;
    Ok(is)
}

fn place_of(group: Group, number: usize, piece: &Piece<'_>) -> Result<ProgramPoint, AllocError>
    ensures { IfOk result (λ at. at ≡ place_of_piece group (number, piece.now)) }
{
    match u32::try_from(number) {
        Err(_) => Err(AllocError),
        Ok(number) => Ok(ProgramPoint::InGroup(group, number, piece.from())),
    }
}

/// Where the first piece of a group begins that runs, from a number on.
pub(crate) fn next_place(
    alloc: Global,
    program: &Program,
    group: Group,
    pieces: &[Piece<'_>],
    skip: usize,
    frame: &Frame,
    world: &World,
) -> Result<Option<ProgramPoint>, AllocError>
    ensures { (fs : List FrameOf) → IfOk result (λ at. at ≡ option_map (place_of_piece group) (first_from (takes_part program.now frame.now fs world.now) skip 0 pieces.now)) }
{
    for k in skip..pieces.len() {
        if takes_part(alloc, program, frame, world, &pieces[k])? {
            return Ok(Some(place_of(group, k, &pieces[k])?));
        }
    }
    Ok(None)
}
