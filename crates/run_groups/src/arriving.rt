// A frame comes to a place (ECMA-335, I.12.4.2; Code Contracts User Manual, section 6.2).

ghost use Rattle.std.specs.Prelude.{◌≡◌, ◌==◌, List, Some, OnOk};
ghost use Rattle.cil_semantics.specs.Unwind.{arrive, arrive_in, goes_at};
ghost use Rattle.cil_semantics.specs.declared.Frame.{Frame as FrameOf};
ghost use Rattle.cil_semantics.specs.declared.ProgramPoint.{ProgramPoint as PointOf};
ghost use Rattle.cil_semantics.specs.declared.World.{World as WorldOf};
ghost use Rattle.run_groups.specs.Begun.{standing};

use crate::beginning::begin_entry;
use cil_model::Program;
use cil_semantics::{Frame, ProgramPoint, World};
use run_handlers::{keep_at, regions_of};
use run_machine::{Machine, Plan};
use std::alloc::{AllocError, Global};

/// The frame stands at a place, where of its handlers only those go on that hold it. An error leaves any list of them.
pub fn go_at(
    alloc: Global,
    program: &Program,
    at: ProgramPoint,
    frame: &mut Frame,
) -> Result<(), AllocError>
    ensures { (fs : List FrameOf) (w : WorldOf) → OnOk result (standing frame.new fs w ≡ goes_at program.now frame.old at frame.old.local frame.old.handling fs w) }
{
    let regions = regions_of(program, frame.method);
    keep_at(alloc, regions, at, &mut frame.handling)?;
    frame.at = at;
    Ok(())
}

fn is_lead_end(plan: &Plan<'_>, q: u32) -> bool
    ensures { result ≡ (q == plan.now.effective.lead_end) }
{
    q == plan.parts().0
}

// The frame comes to a place of the lead-in; at its end the entry group begins, or the rest.
fn arrive_in_lead_in(
    alloc: Global,
    program: &Program,
    plan: &Plan<'_>,
    q: u32,
    frame: &mut Frame,
    world: &mut World,
) -> Result<(), AllocError>
    ensures { (fs : List FrameOf) → OnOk result (standing frame.new fs world.new ≡ arrive_in program.now (Some plan.now) frame.old (PointOf.LeadIn q) frame.old.local frame.old.handling fs world.old) }
{
    if is_lead_end(plan, q) {
        begin_entry(alloc, program, plan, frame, world)?;
    } else {
        go_at(alloc, program, ProgramPoint::LeadIn(q), frame)?;
    }
    Ok(())
}

// The same in a call that goes by a contract.
fn arrive_by(
    alloc: Global,
    program: &Program,
    plan: &Plan<'_>,
    at: ProgramPoint,
    frame: &mut Frame,
    world: &mut World,
) -> Result<(), AllocError>
    ensures { (fs : List FrameOf) → OnOk result (standing frame.new fs world.new ≡ arrive_in program.now (Some plan.now) frame.old at frame.old.local frame.old.handling fs world.old) }
{
    match at {
        ProgramPoint::LeadIn(q) => arrive_in_lead_in(alloc, program, plan, q, frame, world)?,
        ProgramPoint::InGroup(group, number, q) => {
            go_at(
                alloc,
                program,
                ProgramPoint::InGroup(group, number, q),
                frame,
            )?;
        }
        ProgramPoint::Rest(q) => go_at(alloc, program, ProgramPoint::Rest(q), frame)?,
    }
    Ok(())
}

/// The frame comes to a place. At the end of the lead-in the entry group begins, or the rest, at once. An error leaves any frame and world.
pub fn arrive(
    alloc: Global,
    machine: &Machine<'_>,
    at: ProgramPoint,
    frame: &mut Frame,
    world: &mut World,
) -> Result<(), AllocError>
    ensures { (fs : List FrameOf) → OnOk result (standing frame.new fs world.new ≡ arrive machine.now.program machine.now.contracts frame.old at frame.old.local fs world.old) }
{
    match machine.plan(frame.method) {
        None => go_at(alloc, machine.program(), at, frame),
        Some(plan) => arrive_by(alloc, machine.program(), plan, at, frame, world),
    }
}
