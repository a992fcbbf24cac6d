// Frames of calls (ECMA-335, I.12.3.2.2 and III.4.2; Code Contracts User Manual, section 6.2).

ghost use Rattle.std.specs.Prelude.{ℕ, ◌≡◌, ◌++◌, List, IfOk, OnOk};
ghost use Rattle.std.specs.Option.{option_copied};
ghost use Rattle.cil_semantics.specs.Frames.{captured_tys, clause_tys, first_place, frame_with, types_of_refs};
ghost use Rattle.cil_semantics.specs.Lookups.{args_of};
ghost use Rattle.cil_semantics.specs.Places.{default_cells};
ghost use Rattle.cil_semantics.specs.Tokens.{local_tys};
ghost use Rattle.cil_semantics.specs.Unwind.{body_of, plan_at};
ghost use Rattle.cil_semantics.specs.declared.Frame.{Frame as FrameOf};
ghost use Rattle.run_frames.specs.Begun.{local_with};

use crate::types::{captured_types, types_of_locals};
use cil_model::{Program, Ty, Tys};
use cil_semantics::{Cells, Continuation, Frame, Handlings, Local, ProgramPoint, Stack};
use look_ups::args_of;
use run_machine::{Machine, Plan};
use run_tokens::Given;
use run_values::new_default;
use std::alloc::{AllocError, Global};

/// Places of these types, each with its default value.
pub fn default_cells(alloc: Global, program: &Program, tys: &[Ty]) -> Result<Cells, AllocError>
    ensures { IfOk result (λ cells. cells ≡ default_cells program.now tys.now) }
{
    let mut cells = Cells::with_capacity(alloc, tys.len())?;
    for ty in tys {
        cells.push(new_default(alloc, program, ty.copied(alloc)?)?)?;
    }
    Ok(cells)
}

fn copied_tys(alloc: Global, tys: &[Ty]) -> Result<Tys, AllocError>
    ensures { IfOk result (λ copies. copies ≡ tys.now) }
{
    let mut copies = Tys::new(alloc);
    for ty in tys {
        copies.push(ty.copied(alloc)?)?;
    }
    Ok(copies)
}

// The locals of a frame at their default values, behind those of the body those of the kept clauses.
fn new_locals(
    alloc: Global,
    program: &Program,
    owner: &Ty,
    method: u32,
    args: &[Ty],
    plan: Option<&Plan<'_>>,
) -> Result<Cells, AllocError>
    ensures { (number : ℕ) → IfOk result (λ cells. cells ≡ default_cells program.now (local_tys program.now (record { number = number; method = method; type_args = args_of owner.now; method_args = args.now }) (body_of program.now method).locals ++ clause_tys program.now (record { number = number; method = method; type_args = args_of owner.now; method_args = args.now }) (option_copied plan.entry))) }
{
    let given = Given {
        type_args: args_of(owner),
        method_args: args,
    };
    let tys = types_of_locals(alloc, program, &given, method, plan)?;
    let cells = default_cells(alloc, program, tys.as_slice())?;
    Ok(cells)
}

// The captured values of a frame, at first at the default values of their types.
fn new_captured(
    alloc: Global,
    program: &Program,
    owner: &Ty,
    args: &[Ty],
    plan: Option<&Plan<'_>>,
) -> Result<Cells, AllocError>
    ensures { (number method : ℕ) → IfOk result (λ cells. cells ≡ default_cells program.now (captured_tys program.now (record { number = number; method = method; type_args = args_of owner.now; method_args = args.now }) (option_copied plan.entry))) }
{
    let given = Given {
        type_args: args_of(owner),
        method_args: args,
    };
    let tys = captured_types(alloc, program, &given, plan)?;
    let cells = default_cells(alloc, program, tys.as_slice())?;
    Ok(cells)
}

fn first_place(plan: Option<&Plan<'_>>) -> ProgramPoint
    ensures { result ≡ first_place (option_copied plan.entry) }
{
    match plan {
        None => ProgramPoint::Rest(0),
        Some(_) => ProgramPoint::LeadIn(0),
    }
}

fn place_of_first(machine: &Machine<'_>, method: u32) -> ProgramPoint
    ensures { result ≡ first_place (plan_at machine.now.contracts machine.now.program method) }
{
    first_place(machine.plan(method))
}

// Arguments, locals and captured values as a call begins.
fn new_local(
    alloc: Global,
    machine: &Machine<'_>,
    owner: &Ty,
    method: u32,
    method_args: &[Ty],
    args: Cells,
) -> Result<Local, AllocError>
    ensures { (number : ℕ) → IfOk result (λ local. local ≡ local_with machine.now.program (record { number = number; method = method; type_args = args_of owner.now; method_args = method_args.now }) (plan_at machine.now.contracts machine.now.program method) args) }
{
    let plan = machine.plan(method);
    let locals = new_locals(alloc, machine.program(), owner, method, method_args, plan)?;
    let captured = new_captured(alloc, machine.program(), owner, method_args, plan)?;
    Ok(Local {
        args,
        locals,
        captured,
        result: None,
        stack: Stack::new(alloc),
    })
}

/// The frame of a call of a method of a closed type: these arguments, locals at their default values, behind them those of the clauses
/// that the method's contract keeps, and the captured values. It begins with the lead-in, or where the method goes by no contract with
/// the rest. The only error is want of memory.
pub fn new_frame(
    alloc: Global,
    machine: &Machine<'_>,
    owner: &Ty,
    method: u32,
    method_args: Tys,
    args: Cells,
    continuation: Continuation,
) -> Result<Frame, AllocError>
    ensures { (fs : List FrameOf) → IfOk result (λ frame. frame ≡ frame_with machine.now.program machine.now.contracts owner.now method method_args args continuation fs) }
{
    let local = new_local(alloc, machine, owner, method, method_args.as_slice(), args)?;
    let type_args = copied_tys(alloc, args_of(owner))?;
    Ok(Frame {
        method,
        type_args,
        method_args,
        local,
        at: place_of_first(machine, method),
        handling: Handlings::new(alloc),
        thrown: None,
        continuation,
        initializes: None,
    })
}
