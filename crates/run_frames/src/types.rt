// Types of a frame's locals and captured values (ECMA-335, II.23.2.6; Code Contracts User Manual, section 2.2).

ghost use Rattle.std.specs.Prelude.{ℕ, ◌≡◌, ◌++◌, IfOk, OnOk};
ghost use Rattle.std.specs.Option.{option_copied};
ghost use Rattle.cil_semantics.specs.Contracted.{locals_of};
ghost use Rattle.cil_semantics.specs.Frames.{captured_tys, clause_tys, types_of_refs};
ghost use Rattle.cil_semantics.specs.Tokens.{local_tys};
ghost use Rattle.cil_semantics.specs.Unwind.{body_of};
ghost use Rattle.run_frames.specs.Begun.{old_types, types_of_olds};

use cil_base::Token;
use cil_model::{Group, Old, Program, Tys};
use run_machine::{Piece, Plan};
use run_tokens::{Given, local_types, push_ref_type, push_ref_types};
use std::alloc::{AllocError, Global};

#[tactic(auto, unfolding(cil_semantics::specs::Lookups::no_method, cil_semantics::specs::Unwind::no_body))]
fn locals_token(program: &Program, method: u32) -> Option<Token>
    ensures { result ≡ (body_of program.now method).locals }
{
    match program.methods.get(method as usize) {
        None => None,
        Some(desc) => match &desc.body {
            None => None,
            Some(body) => body.locals,
        },
    }
}

// Appends the types of these clauses' own locals.
fn push_locals(
    alloc: Global,
    program: &Program,
    given: &Given,
    pieces: &[Piece<'_>],
    tys: &mut Tys,
) -> Result<(), AllocError>
    ensures { (number method : ℕ) → OnOk result (tys.new ≡ tys.old ++ types_of_refs program.now (record { number = number; method = method; type_args = given.now.type_args.now; method_args = given.now.method_args.now }) (locals_of pieces.now)) }
{
    for piece in pieces {
        push_ref_types(alloc, program, given, piece.clause().locals.as_slice(), tys)?;
    }
    Ok(())
}

// Appends the types of these old values.
fn push_olds(
    alloc: Global,
    program: &Program,
    given: &Given,
    olds: &[Old],
    tys: &mut Tys,
) -> Result<(), AllocError>
    ensures { (number method : ℕ) → OnOk result (tys.new ≡ tys.old ++ types_of_refs program.now (record { number = number; method = method; type_args = given.now.type_args.now; method_args = given.now.method_args.now }) (types_of_olds olds.now)) }
{
    for old in olds {
        push_ref_type(alloc, program, given, &old.ty, tys)?;
    }
    Ok(())
}

// Appends the types of these clauses' old values.
fn push_captured(
    alloc: Global,
    program: &Program,
    given: &Given,
    pieces: &[Piece<'_>],
    tys: &mut Tys,
) -> Result<(), AllocError>
    ensures { (number method : ℕ) → OnOk result (tys.new ≡ tys.old ++ types_of_refs program.now (record { number = number; method = method; type_args = given.now.type_args.now; method_args = given.now.method_args.now }) (old_types pieces.now)) }
{
    for piece in pieces {
        push_olds(alloc, program, given, piece.clause().olds.as_slice(), tys)?;
    }
    Ok(())
}

// Appends the types of the locals of the clauses and invariants that a plan keeps.
fn push_kept(
    alloc: Global,
    program: &Program,
    given: &Given,
    plan: Option<&Plan<'_>>,
    tys: &mut Tys,
) -> Result<(), AllocError>
    ensures { (number method : ℕ) → OnOk result (tys.new ≡ tys.old ++ clause_tys program.now (record { number = number; method = method; type_args = given.now.type_args.now; method_args = given.now.method_args.now }) (option_copied plan.entry)) }
{
    let Some(plan) = plan else {
        return Ok(());
    };
    push_locals(alloc, program, given, plan.clauses(), tys)?;
    push_locals(alloc, program, given, plan.pieces(Group::Invariant), tys)?;
    Ok(())
}

/// The types of a frame's locals: of the method's body, and behind them those of the clauses and invariants that its plan keeps.
pub(crate) fn types_of_locals(
    alloc: Global,
    program: &Program,
    given: &Given,
    method: u32,
    plan: Option<&Plan<'_>>,
) -> Result<Tys, AllocError>
    ensures { (number : ℕ) → IfOk result (λ tys. tys ≡ local_tys program.now (record { number = number; method = method; type_args = given.now.type_args.now; method_args = given.now.method_args.now }) (body_of program.now method).locals ++ clause_tys program.now (record { number = number; method = method; type_args = given.now.type_args.now; method_args = given.now.method_args.now }) (option_copied plan.entry)) }
{
    let mut tys = local_types(alloc, program, given, method, locals_token(program, method))?;
    push_kept(alloc, program, given, plan, &mut tys)?;
    Ok(tys)
}

// Appends the types of the old values of the clauses that a plan keeps.
#[tactic(auto, using(crate::proofs::TypeLaws::types_of_all))]
fn push_kept_olds(
    alloc: Global,
    program: &Program,
    given: &Given,
    plan: Option<&Plan<'_>>,
    tys: &mut Tys,
) -> Result<(), AllocError>
    ensures { (number method : ℕ) → OnOk result (tys.new ≡ tys.old ++ captured_tys program.now (record { number = number; method = method; type_args = given.now.type_args.now; method_args = given.now.method_args.now }) (option_copied plan.entry)) }
{
    let Some(plan) = plan else {
        return Ok(());
    };
    push_captured(alloc, program, given, plan.clauses(), tys)?;
    Ok(())
}

/// The types of a frame's captured values.
pub(crate) fn captured_types(
    alloc: Global,
    program: &Program,
    given: &Given,
    plan: Option<&Plan<'_>>,
) -> Result<Tys, AllocError>
    ensures { (number method : ℕ) → IfOk result (λ tys. tys ≡ captured_tys program.now (record { number = number; method = method; type_args = given.now.type_args.now; method_args = given.now.method_args.now }) (option_copied plan.entry)) }
{
    let mut tys = Tys::new(alloc);
    push_kept_olds(alloc, program, given, plan, &mut tys)?;
    Ok(tys)
}
