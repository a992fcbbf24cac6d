// An exception in one frame (ECMA-335, I.12.4.2.5; Code Contracts User Manual, section 2.3).

ghost use Rattle.std.specs.Prelude.{ℕ, ◌≡◌, List, Some, IfOk};
ghost use Rattle.cil_semantics.specs.Unwind.{Below, drops, ends_frame, land, no_handler_left, piece_at, plan_at, throws_in};
ghost use Rattle.cil_semantics.specs.declared.Frame.{Frame as FrameOf};
ghost use Rattle.cil_semantics.specs.declared.ProgramPoint.{ProgramPoint as PointOf};
ghost use Rattle.run_groups.specs.Begun.{begun_or};
ghost use Rattle.run_handlers.specs.Found.{found_by};

use crate::entering::{begin_catch, begin_cleanup};
use cil_model::{Group, Program};
use cil_semantics::{Frame, ProgramPoint, World};
use run_groups::{after_entry_piece, begin_group, lower_depth};
use run_handlers::{Sought, find_at};
use run_machine::{Machine, Plan};
use std::alloc::{AllocError, Global};

// Whether an exception of a piece is dropped, as that of a captured value is.
fn drops(plan: &Plan<'_>, group: Group, number: u32) -> bool
    ensures { result ≡ drops (piece_at (Some plan.now) group number) }
{
    match plan.piece(group, number as usize) {
        None => false,
        Some(piece) => piece.captures().is_some(),
    }
}

// An exception in a piece of a group. Of a captured value it is dropped; else it ends the frame, with the depth one lower.
fn throw_in_piece(
    alloc: Global,
    program: &Program,
    plan: &Plan<'_>,
    group: Group,
    number: u32,
    frame: &mut Frame,
    world: &mut World,
) -> Result<bool, AllocError>
    ensures { (q x : ℕ) (fs : List FrameOf) (below : Below) → IfOk result (λ stands. begun_or stands frame.new fs world.new (ends_frame program.now frame.new.initializes frame.new.continuation world.new x below) ≡ no_handler_left program.now (Some plan.now) frame.old (PointOf.InGroup group number q) fs world.old x below) }
{
    if drops(plan, group, number) {
        after_entry_piece(alloc, program, plan, number, frame, world)?;
        return Ok(true);
    }
    lower_depth(world);
    Ok(false)
}

// An exception leaves the rest: the group of EnsuresOnThrow runs, or the frame ends.
fn throw_out_of_rest(
    alloc: Global,
    program: &Program,
    plan: &Plan<'_>,
    frame: &mut Frame,
    world: &mut World,
    exception: u32,
) -> Result<bool, AllocError>
    ensures { (q : ℕ) (fs : List FrameOf) (below : Below) → IfOk result (λ stands. begun_or stands frame.new fs world.new (ends_frame program.now frame.new.initializes frame.new.continuation world.new exception below) ≡ no_handler_left program.now (Some plan.now) frame.old (PointOf.Rest q) fs world.old exception below) }
{
    frame.thrown = Some(exception);
    let stands = begin_group(alloc, program, plan, Group::Throw, frame, world)?;
    Ok(stands)
}

fn throw_by_plan(
    alloc: Global,
    program: &Program,
    plan: &Plan<'_>,
    frame: &mut Frame,
    world: &mut World,
    exception: u32,
) -> Result<bool, AllocError>
    ensures { (fs : List FrameOf) (below : Below) → IfOk result (λ stands. begun_or stands frame.new fs world.new (ends_frame program.now frame.new.initializes frame.new.continuation world.new exception below) ≡ no_handler_left program.now (Some plan.now) frame.old frame.old.at fs world.old exception below) }
{
    match frame.at {
        ProgramPoint::LeadIn(_) => Ok(false),
        ProgramPoint::InGroup(group, number, _) => {
            let stands = throw_in_piece(alloc, program, plan, group, number, frame, world)?;
            Ok(stands)
        }
        ProgramPoint::Rest(_) => {
            let stands = throw_out_of_rest(alloc, program, plan, frame, world, exception)?;
            Ok(stands)
        }
    }
}

// No handler is left in the frame. Answers whether it goes on.
fn throw_out(
    alloc: Global,
    machine: &Machine<'_>,
    frame: &mut Frame,
    world: &mut World,
    exception: u32,
) -> Result<bool, AllocError>
    ensures { (fs : List FrameOf) (below : Below) → IfOk result (λ stands. begun_or stands frame.new fs world.new (ends_frame machine.now.program frame.new.initializes frame.new.continuation world.new exception below) ≡ no_handler_left machine.now.program (plan_at machine.now.contracts machine.now.program frame.old.method) frame.old frame.old.at fs world.old exception below) }
{
    match machine.plan(frame.method) {
        None => Ok(false),
        Some(plan) => {
            let program = machine.program();
            let stands = throw_by_plan(alloc, program, plan, frame, world, exception)?;
            Ok(stands)
        }
    }
}

// The frame goes on where the search ended, or ends.
fn land(
    alloc: Global,
    machine: &Machine<'_>,
    frame: &mut Frame,
    sought: Sought,
    place: u32,
    world: &mut World,
    exception: u32,
) -> Result<bool, AllocError>
    ensures { (fs : List FrameOf) (below : Below) → IfOk result (λ stands. begun_or stands frame.new fs world.new (ends_frame machine.now.program frame.new.initializes frame.new.continuation world.new exception below) ≡ land machine.now.program machine.now.contracts (found_by sought) frame.old frame.old.handling place fs world.old exception below) }
{
    match sought {
        Sought::Nowhere => {
            let stands = throw_out(alloc, machine, frame, world, exception)?;
            Ok(stands)
        }
        Sought::Catch(handler, to) => {
            begin_catch(
                alloc,
                machine.program(),
                frame,
                handler,
                to,
                exception,
                place,
            )?;
            Ok(true)
        }
        Sought::Cleanup(handler, to) => {
            begin_cleanup(
                alloc,
                machine.program(),
                frame,
                handler,
                to,
                exception,
                place,
            )?;
            Ok(true)
        }
    }
}

/// The search in one frame, from a region's number on, for an exception that was thrown at a place. Answers whether the frame goes on;
/// else it ends.
pub(crate) fn throw_in(
    alloc: Global,
    machine: &Machine<'_>,
    frame: &mut Frame,
    skip: usize,
    place: u32,
    world: &mut World,
    exception: u32,
) -> Result<bool, AllocError>
    ensures { (fs : List FrameOf) (below : Below) → IfOk result (λ stands. begun_or stands frame.new fs world.new (ends_frame machine.now.program frame.new.initializes frame.new.continuation world.new exception below) ≡ throws_in machine.now.program machine.now.contracts frame.old frame.old.handling skip place fs world.old exception below) }
{
    let program = machine.program();
    let at = frame.at;
    let sought = find_at(alloc, program, frame, world, exception, skip, place, at)?;
    let stands = land(alloc, machine, frame, sought, place, world, exception)?;
    Ok(stands)
}
